use crate::waiting::comes;
use jm_runner::Gate;
use std::sync::atomic::{AtomicU64, Ordering};

/// A gate that holds each of two callers before its first line until the other has come to its own.
#[derive(Drop)]
pub(crate) struct MeetingGate {
    first: AtomicU64,
    second: AtomicU64,
    missed: AtomicU64,
}

impl MeetingGate {
    pub(crate) fn new() -> MeetingGate {
        MeetingGate {
            first: AtomicU64::new(0),
            second: AtomicU64::new(0),
            missed: AtomicU64::new(0),
        }
    }

    /// How many callers waited in vain.
    pub(crate) fn missed(&self) -> u64 {
        self.missed.load(Ordering::SeqCst)
    }

    /// Sets a caller's flag, and looks for the other's.
    fn meet(&self, own: &AtomicU64, other: &AtomicU64) {
        own.store(1, Ordering::SeqCst);
        if !comes(other) {
            self.missed.fetch_add(1, Ordering::SeqCst);
        }
    }
}

impl Gate for MeetingGate {
    fn before(&self, caller: u32, n: u32) {
        match (caller, n) {
            (0, 1) => self.meet(&self.first, &self.second),
            (1, 1) => self.meet(&self.second, &self.first),
            _ => {}
        }
    }

    fn after(&self, _caller: u32, _n: u32) {}
}
