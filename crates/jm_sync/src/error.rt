//! Why scripts can't be run in the order that they ask for.
ghost use Rattle.std.specs.Prelude.{◌≡◌, ◌<◌, ◌^◌};

use jm_model::{NoMemory, ScriptFault};
use std::alloc::{AllocError, AllocFailed};

/// Why scripts were refused: what is wrong, in the script of this number, counted from 0; or memory was short.
#[derive(Clone, Copy, Debug, PartialEq, Eq)]
pub enum SyncError {
    Bad { script: u32, fault: ScriptFault },
    NoMemory,
}

impl SyncError {
    /// What is wrong with the script of this number.
    pub(crate) fn bad(script: usize, fault: ScriptFault) -> SyncError
        requires { script < 2 ^ 32 }
        ensures { result ≡ SyncError.Bad script fault }
    {
        SyncError::Bad {
            script: script as u32,
            fault,
        }
    }
}

impl From<NoMemory> for SyncError {
    ghost use Rattle.jm_sync.specs.declared.error.SyncError.TheVariants.{NoMemory};

    ghost from_gives = { λ _ error. error ≡ NoMemory };

    fn from(_refused: NoMemory) -> SyncError {
        SyncError::NoMemory
    }
}

impl From<AllocError> for SyncError {
    ghost use Rattle.jm_sync.specs.declared.error.SyncError.TheVariants.{NoMemory};

    ghost from_gives = { λ _ error. error ≡ NoMemory };

    fn from(_refused: AllocError) -> SyncError {
        SyncError::NoMemory
    }
}

impl<T: Drop> From<AllocFailed<T>> for SyncError {
    ghost use Rattle.jm_sync.specs.declared.error.SyncError.TheVariants.{NoMemory};

    ghost from_gives = { λ _ error. error ≡ NoMemory };

    fn from(_refused: AllocFailed<T>) -> SyncError {
        SyncError::NoMemory
    }
}
