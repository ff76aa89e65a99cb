//! The folder and the sinks over the system: real files, standard output and standard error. They are the edge
//! that is trusted, and tell nothing of what a file holds or what was written.
ghost use Rattle.std.specs.Prelude.{◌≡◌, ◌≢◌, ◌<◌, ◌≤◌, None, length, IfOk, OnErr};
ghost use Rattle.jm_port.specs.Faults.{HasRisen};

use crate::folder::{Folder, LoadFault};
use crate::sink::{PutFault, Sink};
use std::fs::File;
use std::io::{ErrorKind, Read, Stderr};
use std::marker::Model;
use std::rt::Files;

/// Real files. Each `Err` raises the count of faults.
#[derive(Drop)]
pub struct HostFolder<R> {
    rt: R,
    faults: u64,
}

impl<R> Model for HostFolder<R> {
    ghost use Rattle.std.specs.Prelude.{ℕ};

    ghost Value = { ℕ };

    ghost view = { λ f. f.faults };
}

impl<R> HostFolder<R> {
    /// The folder of the system that `rt` stands for. Contracts see it as its count of faults.
    pub fn new(rt: R) -> HostFolder<R>
        ensures { result ≡ 0 }
    {
        HostFolder { rt, faults: 0 }
    }
}

impl<R: Files + AllocGlobal> Folder for HostFolder<R> {
    ghost holds = { λ _ _. None };

    ghost faults = { λ f. f };

    fn load(&mut self, name: &str, limit: usize) -> Result<Vec<u8>, LoadFault>
        ensures within { IfOk result (λ bytes. length bytes.items ≤ limit) }
        ensures counted { OnErr result (HasRisen self.old self.new) }
        ensures never_falls { self.old ≤ self.new }
    {
        // the file is read piece by piece, and no further than one byte past the limit
        let most = (limit as u64).saturating_add(1);
        let mut bytes = Vec::new(self.rt.alloc());
        let read = File::open(&self.rt, name).and_then(|f| f.take(most).read_to_end(&mut bytes));
        let fault = match read {
            Ok(_) if bytes.len() <= limit => return Ok(bytes),
            Ok(_) => LoadFault::TooLong,
            Err(e) if e.kind() == ErrorKind::OutOfMemory => LoadFault::NoMemory,
            Err(_) => LoadFault::Failed,
        };
        self.faults = self.faults.saturating_add(1);
        Err(fault)
    }
}

/// Standard output. Each `Err` raises the count of faults, and no put answers `NoMemory`.
#[derive(Drop)]
pub struct HostSink<R> {
    rt: R,
    faults: u64,
}

impl<R> Model for HostSink<R> {
    ghost use Rattle.std.specs.Prelude.{ℕ};

    ghost Value = { ℕ };

    ghost view = { λ s. s.faults };
}

impl<R> HostSink<R> {
    /// The standard output of the system that `rt` stands for. Contracts see it as its count of faults.
    pub fn new(rt: R) -> HostSink<R>
        ensures { result ≡ 0 }
    {
        HostSink { rt, faults: 0 }
    }
}

impl<R: Print> Sink for HostSink<R> {
    ghost written = { λ _. None };

    ghost faults = { λ s. s };

    fn put(&mut self, piece: &[u8]) -> Result<usize, PutFault>
        ensures within { IfOk result (λ n. n ≤ length piece.now) }
        ensures progress { IfOk result (λ n. 0 < length piece.now → 0 < n) }
        ensures counted { OnErr result (HasRisen self.old self.new) }
        ensures never_falls { self.old ≤ self.new }
        ensures takes_no_memory { result ≢ Err PutFault.NoMemory }
    {
        for _ in 0..u64::MAX {
            match self.rt.write_some(piece) {
                // a signal broke in
                Err(e) if e.kind() == ErrorKind::Interrupted => {}
                Ok(n) if n > 0 || piece.is_empty() => return Ok(n),
                _ => break,
            }
        }
        self.faults = self.faults.saturating_add(1);
        Err(PutFault::Failed)
    }
}

/// Standard error. Each `Err` raises the count of faults, and no put answers `NoMemory`.
#[derive(Drop)]
pub struct HostFault {
    sink: HostSink<Stderr>,
}

impl Model for HostFault {
    ghost use Rattle.std.specs.Prelude.{ℕ};

    ghost Value = { ℕ };

    ghost view = { λ s. s.sink };
}

impl HostFault {
    /// The system's standard error. Contracts see it as its count of faults.
    pub fn new(rt: HostRuntime) -> HostFault
        ensures { result ≡ 0 }
    {
        HostFault {
            sink: HostSink::new(rt.stderr()),
        }
    }
}

impl Sink for HostFault {
    ghost written = { λ _. None };

    ghost faults = { λ s. s };

    fn put(&mut self, piece: &[u8]) -> Result<usize, PutFault>
        ensures within { IfOk result (λ n. n ≤ length piece.now) }
        ensures progress { IfOk result (λ n. 0 < length piece.now → 0 < n) }
        ensures counted { OnErr result (HasRisen self.old self.new) }
        ensures never_falls { self.old ≤ self.new }
        ensures takes_no_memory { result ≢ Err PutFault.NoMemory }
    {
        self.sink.put(piece)
    }
}
