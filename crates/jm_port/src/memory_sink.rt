//! Sinks that keep what is written in memory.
ghost use Rattle.std.specs.Prelude.{ℕ, ◌≡◌, ◌<◌, ◌≤◌, ◌↔◌, ◌≢◌, [], true, false, length, take, min, Contains, IfOk, OnErr, IsErrOf, Some};
ghost use Rattle.jm_port.specs.Sinks.{appended, after_put};

use crate::sink::{PutFault, Sink};
use std::alloc::Global;
use std::marker::Model;

/// Text in memory that takes a few bytes at a time, and some of whose puts fail, so that a caller's failures can
/// be tried.
#[derive(Drop)]
pub struct MemorySink {
    text: Vec<u8>,
    step: usize,
    fail: Vec<u64>,
    calls: u64,
    faults: u64,
}

impl Model for MemorySink {
    ghost use Rattle.std.specs.Prelude.{◌<◌};
    ghost use Rattle.jm_port.specs.Sinks.{MemoryText};

    ghost Value = { MemoryText };

    ghost view = { λ s. record {
      text = s.text.items;
      step = s.step;
      fail = s.fail.items;
      calls = s.calls;
      faults = s.faults;
    } };

    ghost invariant = { λ s. 0 < s.step };
}

impl MemorySink {
    /// A sink of no text. Each put takes at most `step` bytes, and fails where its number, counted from 0, stands in
    /// `fail`.
    pub fn new(alloc: Global, step: usize, fail: Vec<u64>) -> MemorySink
        requires { 0 < step }
        ensures { result ≡ record { text = []; step = step; fail = fail.items; calls = 0; faults = 0 } }
    {
        MemorySink {
            text: Vec::new(alloc),
            step,
            fail,
            calls: 0,
            faults: 0,
        }
    }

    /// All that was written.
    pub fn bytes(&self) -> &[u8]
        ensures { result.now ≡ self.now.text }
    {
        self.text.as_slice()
    }
}

impl Sink for MemorySink {
    ghost written = { λ s. Some s.text };

    ghost faults = { λ s. s.faults };

    fn put(&mut self, piece: &[u8]) -> Result<usize, PutFault>
        ensures progress { IfOk result (λ n. 0 < length piece.now → 0 < n) }
        ensures never_falls { self.old.faults ≤ self.new.faults }

        ensures count { IfOk result (λ n. n ≡ min (length piece.now) self.old.step) }
        ensures fails_where { IsErrOf result PutFault.Failed ↔ Contains self.old.fail self.old.calls }
        ensures after_failed { result ≡ Err PutFault.Failed → self.new ≡ after_put self.old true [] }
        ensures after_ok { IfOk result (λ n. self.new ≡ after_put self.old false (take n piece.now)) }
        ensures after_no_memory { result ≡ Err PutFault.NoMemory → self.new ≡ after_put self.old false [] }
    {
        let call = self.calls;
        self.calls = call.saturating_add(1);
        if self.fail.contains(&call) {
            self.faults = self.faults.saturating_add(1);
            return Err(PutFault::Failed);
        }
        let n = piece.len().min(self.step);
        self.text.extend_from_slice(&piece[..n])?;
        Ok(n)
    }
}

/// Text in memory whose puts never fail, and take each piece whole.
#[derive(Drop)]
pub struct SureSink {
    text: Vec<u8>,
}

impl Model for SureSink {
    ghost use Rattle.std.specs.Prelude.{List, ℕ};

    ghost Value = { List ℕ };

    ghost view = { λ s. s.text.items };
}

impl SureSink {
    /// A sink of no text.
    pub fn new(alloc: Global) -> SureSink
        ensures { result ≡ [] }
    {
        SureSink {
            text: Vec::new(alloc),
        }
    }

    /// All that was written.
    pub fn bytes(&self) -> &[u8]
        ensures { result.now ≡ self.now }
    {
        self.text.as_slice()
    }
}

impl Sink for SureSink {
    ghost written = { λ s. Some s };

    ghost faults = { λ _. 0 };

    fn put(&mut self, piece: &[u8]) -> Result<usize, PutFault>
        ensures whole { IfOk result (λ n. n ≡ length piece.now) }
        ensures within { IfOk result (λ n. n ≤ length piece.now) }
        ensures progress { IfOk result (λ n. 0 < length piece.now → 0 < n) }
        ensures ok { IfOk result (λ n. Some self.new ≡ appended (Some self.old) (take n piece.now)) }
        ensures err { OnErr result (Some self.new ≡ Some self.old) }
        ensures failed { result ≢ Err PutFault.Failed }
    {
        self.text.extend_from_slice(piece)?;
        Ok(piece.len())
    }
}
