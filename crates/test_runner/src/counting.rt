use jm_runner::Gate;
use std::alloc::{AllocError, Global};
use std::sync::atomic::{AtomicU64, Ordering};

/// A gate that counts, for each of four callers, what it is told, and how often that isn't what comes next.
#[derive(Drop)]
pub(crate) struct CountingGate {
    told: [AtomicU64; 4],
    astray: AtomicU64,
}

impl CountingGate {
    pub(crate) fn new() -> CountingGate {
        CountingGate {
            told: [
                AtomicU64::new(0),
                AtomicU64::new(0),
                AtomicU64::new(0),
                AtomicU64::new(0),
            ],
            astray: AtomicU64::new(0),
        }
    }

    /// What is told next has the number `next`, counted over both kinds from 1.
    fn tell(&self, caller: u32, next: u64) {
        let before = match self.told.get(caller as usize) {
            Some(told) => told.swap(next, Ordering::SeqCst),
            None => next,
        };
        if before.wrapping_add(1) != next {
            self.astray.fetch_add(1, Ordering::SeqCst);
        }
    }

    /// How much each caller told, and how much of it wasn't what came next.
    pub(crate) fn shown(&self, alloc: Global) -> Result<String, AllocError> {
        let mut shown = String::new(alloc);
        for told in &self.told {
            shown.push_str(format!(in alloc; "{} ", told.load(Ordering::SeqCst))?.as_str())?;
        }
        shown.push_str(format!(in alloc;
            "{} astray",
            self.astray.load(Ordering::SeqCst)
        )?.as_str())?;
        Ok(shown)
    }
}

impl Gate for CountingGate {
    fn before(&self, caller: u32, n: u32) {
        self.tell(caller, (u64::from(n) * 2).wrapping_sub(1));
    }

    fn after(&self, caller: u32, n: u32) {
        self.tell(caller, u64::from(n) * 2);
    }
}
