//! What a workload is.
ghost use Rattle.std.specs.Prelude.{◌≡◌};

use std::alloc::AllocError;

/// Why a workload isn't made.
#[derive(Clone, Copy, Debug, PartialEq, Eq)]
pub enum GenError {
    /// It has no round, or more than 8000.
    OutOfRange,
    /// Memory is short.
    NoMemory,
}

impl From<AllocError> for GenError {
    ghost use Rattle.jm_gen.specs.declared.files.GenError.TheVariants.{NoMemory};

    ghost from_gives = { λ _ error. error ≡ NoMemory };

    fn from(_refused: AllocError) -> GenError {
        GenError::NoMemory
    }
}

/// The files of a workload.
#[derive(Drop)]
pub struct Workload {
    pub specs: Vec<Vec<u8>>,
    pub scripts: Vec<Vec<u8>>,
}
