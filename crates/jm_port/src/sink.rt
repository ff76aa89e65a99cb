ghost use Rattle.std.specs.Prelude.{ℕ, ◌≡◌, ◌<◌, ◌≤◌, List, Option, length, take, IfOk, OnOk, OnErr};
ghost use Rattle.jm_port.specs.Faults.{HasRisen};
ghost use Rattle.jm_port.specs.Sinks.{appended, AppendsPrefix};

use std::alloc::AllocError;

/// Why text was not written.
#[derive(Clone, Copy, Debug, PartialEq, Eq)]
pub enum PutFault {
    /// It could not be written.
    Failed,
    /// There was no memory to keep it.
    NoMemory,
}

impl From<AllocError> for PutFault {
    ghost use Rattle.jm_port.specs.declared.sink.PutFault.TheVariants.{NoMemory};

    ghost from_gives = { λ _ error. error ≡ NoMemory };

    fn from(_refused: AllocError) -> PutFault {
        PutFault::NoMemory
    }
}

/// A place that takes text, piece by piece.
pub trait Sink {
    /// All that was written, where the sink tells that.
    ghost written: { Self → Option (List ℕ) };

    /// How many puts have failed so far. The count never falls.
    ghost faults: { Self → ℕ };

    /// Appends the first bytes of the piece, and answers how many: at least one, if there is one.
    ///
    /// After an `Err` nothing was appended. `Failed` comes only where the count of faults rises.
    fn put(&mut self, piece: &[u8]) -> Result<usize, PutFault>
        ensures within { IfOk result (λ n. n ≤ length piece.now) }
        ensures progress { IfOk result (λ n. 0 < length piece.now → 0 < n) }
        ensures ok { IfOk result (λ n. written self.new ≡ appended (written self.old) (take n piece.now)) }
        ensures err { OnErr result (written self.new ≡ written self.old) }
        ensures failed { result ≡ Err PutFault.Failed → HasRisen (faults self.old) (faults self.new) }
        ensures never_falls { faults self.old ≤ faults self.new };
}

/// Writes the whole text: a `put` for what is left, until nothing is. Each writes at least one byte, so there are
/// at most as many puts as bytes. After an `Err`, which is that of the last `put`, a prefix of the text was written.
pub fn put_all<S: Sink>(out: &mut S, text: &[u8]) -> Result<(), PutFault>
    ensures ok { OnOk result (S.written out.new ≡ appended (S.written out.old) text.now) }
    ensures err { OnErr result (AppendsPrefix (S.written out.old) (S.written out.new) text.now) }
    ensures failed { result ≡ Err PutFault.Failed → HasRisen (S.faults out.old) (S.faults out.new) }
    ensures never_falls { S.faults out.old ≤ S.faults out.new }
{
    let mut done = 0;
    while done < text.len() {
        done += out.put(&text[done..])?;
    }
    Ok(())
}
