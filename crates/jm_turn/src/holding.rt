//! What a seat does before it draws a ticket: it holds back while others have tickets, but not for long.
ghost use Rattle.std.specs.Prelude.{◌≡◌, ◌≤◌};
ghost use Rattle.jm_turn.specs.TableSeats.{IsShaped};

use crate::kept::Kept;
use crate::rule::{SERVING, SharedTable, TICKET};
use std::hint;
use std::sync::Wait;
use std::sync::atomic::AtomicU64;
use std::time::Duration;

// How many looks a seat earns by each turn.
const EARNED: u32 = 4;

// How many it can save up.
const MOST_LOOKS: u32 = 1000;

// How many naps a seat takes at most before it draws a ticket in any case: some 13 milliseconds in all.
const NAPS: u32 = 16;

// The first nap, in microseconds.
const SHORTEST_NAP: u64 = 64;

// How many naps are twice as long as the one before.
const DOUBLINGS: u32 = 4;

// Waits until no seat has a ticket, or until it has waited for long enough.
//
// A look costs processor time, which a seat has to have earned; without looks it sleeps.
pub fn hold_back<V: Kept, R: Wait>(rt: &R, table: &SharedTable<V>, looks: &mut u32)
    requires shape { IsShaped table.now.table_id }
    ensures bounded { looks.new ≤ 1000 }
{
    *looks = looks.saturating_add(EARNED).min(MOST_LOOKS);
    for nap in 0..NAPS {
        if finds_quiet(table, looks) {
            return;
        }
        sleep(rt, SHORTEST_NAP << nap.min(DOUBLINGS));
    }
}

// Whether no seat has a ticket just now: it looks again until that is so, or no look is left.
fn finds_quiet<V: Kept>(table: &SharedTable<V>, looks: &mut u32) -> bool
    requires shape { IsShaped table.now.table_id }
    ensures spent { looks.new ≤ looks.old }
{
    while table.peek(SERVING) != table.peek(TICKET) {
        if *looks == 0 {
            return false;
        }
        *looks -= 1;
        hint::spin_loop();
    }
    true
}

// Sleeps for the given number of microseconds, on a word of its own, on which nobody wakes it.
fn sleep<R: Wait>(rt: &R, micros: u64) {
    AtomicU64::new(0).park_timeout(rt, 0, Duration::from_micros(micros));
}
