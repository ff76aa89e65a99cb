ghost use Rattle.std.specs.Prelude.{ℕ, ◌≡◌, ◌<◌, ◌≤◌, List, Option, length, IfSome, IfOk};
ghost use Rattle.jm_port.specs.Faults.{HasRisen};

use std::alloc::AllocError;

/// Why a file was not loaded.
#[derive(Clone, Copy, Debug, PartialEq, Eq)]
pub enum LoadFault {
    /// The file could not be read.
    Failed,
    /// The file holds more bytes than the caller's limit.
    TooLong,
    /// There was no memory for its bytes.
    NoMemory,
}

impl From<AllocError> for LoadFault {
    ghost use Rattle.jm_port.specs.declared.folder.LoadFault.TheVariants.{NoMemory};

    ghost from_gives = { λ _ error. error ≡ NoMemory };

    fn from(_refused: AllocError) -> LoadFault {
        LoadFault::NoMemory
    }
}

/// Files by their names.
pub trait Folder {
    /// What each name holds, where the folder tells that.
    ghost holds: { Self → List ℕ → Option (List ℕ) };

    /// How many loads have failed so far. The count never falls.
    ghost faults: { Self → ℕ };

    /// The whole contents of a file of at most `limit` bytes.
    ///
    /// `TooLong` is for a file of more than `limit` bytes and for no other, and `Failed` comes only where the
    /// count of faults rises. So where the folder tells what the name holds, the count doesn't rise and memory
    /// is there, the answer is the contents or `TooLong`, by their length alone. A load changes nothing of what
    /// the folder holds.
    fn load(&mut self, name: &str, limit: usize) -> Result<Vec<u8>, LoadFault>
        ensures within { IfOk result (λ bytes. length bytes.items ≤ limit) }
        ensures whole { IfOk result (λ bytes. IfSome (holds self.old name.now) (λ held. bytes.items ≡ held)) }
        ensures too_long { result ≡ Err LoadFault.TooLong
            → IfSome (holds self.old name.now) (λ held. limit < length held) }
        ensures failed { result ≡ Err LoadFault.Failed → HasRisen (faults self.old) (faults self.new) }
        ensures never_falls { faults self.old ≤ faults self.new }
        ensures unchanged { (other : List ℕ) → holds self.new other ≡ holds self.old other };
}
