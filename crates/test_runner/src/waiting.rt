//! Waiting for another thread, but not for ever.
use std::sync::atomic::{AtomicU64, Ordering};
use std::thread;

/// How often a thread looks for another.
const TURNS: u32 = 10_000_000;

/// Looks for the flag again and again, and tells whether it was set.
pub(crate) fn comes(flag: &AtomicU64) -> bool {
    for _turn in 0..TURNS {
        if flag.load(Ordering::SeqCst) != 0 {
            return true;
        }
        thread::yield_now();
    }
    false
}
