//! How a command ends.
ghost use Rattle.std.specs.Prelude.{◌≡◌};
ghost use Rattle.jm_inputs.specs.Statuses.{code_of};

use jm_model::{NoMemory, ScriptFault, SpecFault};

/// The most bytes that the file of a specification or a script may have.
pub const MOST_BYTES: usize = 4_194_304;

/// How a command ended. Specifications and scripts are numbered from 0, each by their own order, and files by the order
/// of the words.
#[derive(Clone, Copy, Debug, PartialEq, Eq)]
pub enum Status {
    /// The whole text was written.
    Done,
    /// The words spell no command.
    Usage,
    /// A specification has a fault.
    BadSpec { file: u32, fault: SpecFault },
    /// A script has a fault.
    BadScript { script: u32, fault: ScriptFault },
    /// A file couldn't be read.
    ReadFailed { file: u32 },
    /// The text couldn't be written whole.
    WriteFailed,
    /// Memory was wanted and refused.
    NoMemory,
    /// The history that is to be audited is too long.
    BadHistory,
}

impl Status {
    /// The exit status of the program: 0 for `Done`, then from 2 on in the order of the variants.
    pub fn code(&self) -> u8
        ensures { result ≡ code_of self.now }
    {
        match self {
            Status::Done => 0,
            Status::Usage => 2,
            Status::BadSpec { .. } => 3,
            Status::BadScript { .. } => 4,
            Status::ReadFailed { .. } => 5,
            Status::WriteFailed => 6,
            Status::NoMemory => 7,
            Status::BadHistory => 8,
        }
    }
}

impl From<NoMemory> for Status {
    ghost use Rattle.jm_inputs.specs.declared.status.Status.TheVariants.{NoMemory};

    ghost from_gives = { λ _ status. status ≡ NoMemory };

    fn from(_refused: NoMemory) -> Status {
        Status::NoMemory
    }
}
