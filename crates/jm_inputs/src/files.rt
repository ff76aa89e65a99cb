//! The files of a command.
ghost use Rattle.std.specs.Prelude.{◌≡◌, ◌≤◌, ℕ, List, length, IfOk, IfErr};
ghost use Rattle.jm_inputs.specs.Sources.{Named, Gives};
ghost use Rattle.jm_inputs.specs.Causes.{CountsFailedReads, IsFaulty, IsNotLoaded};

use crate::status::Status;
use jm_port::{Folder, LoadFault};

/// The bytes of the file of this name, which has this number among all. One of more than `most` bytes ends the command
/// with the status that is given.
pub fn load<F: Folder>(
    name: &str,
    number: u32,
    most: usize,
    too_long: Status,
    files: &mut F,
) -> Result<Vec<u8>, Status>
    requires { IsFaulty too_long }
    ensures within { IfOk result (λ bytes. length bytes.items ≤ most) }
    ensures held { IfOk result (λ bytes. Gives (F.holds files.old) (Named name.now) bytes.items) }
    ensures err { IfErr result (IsNotLoaded (F.holds files.old) name.now number most too_long) }
    ensures read_failed { CountsFailedReads result (F.faults files.old) (F.faults files.new) }
    ensures never_falls { F.faults files.old ≤ F.faults files.new }
    ensures unchanged { (other : List ℕ) → F.holds files.new other ≡ F.holds files.old other }
{
    match files.load(name, most) {
        Ok(bytes) => Ok(bytes),
        Err(LoadFault::Failed) => Err(Status::ReadFailed { file: number }),
        Err(LoadFault::TooLong) => Err(too_long),
        Err(LoadFault::NoMemory) => Err(Status::NoMemory),
    }
}

/// Lets the bytes of a file go, after most of them were given back. Where a large piece of memory is freed at once, the
/// C library takes it that large pieces come and go: those that grow later are moved about on its heap then, which
/// costs a fifth of all memory.
pub fn let_go(mut bytes: Vec<u8>) {
    bytes.truncate(1);
    let _ = bytes.shrink_to_fit();
}
