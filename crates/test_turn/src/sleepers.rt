//! Turns that take so long that seats sleep until their turn comes. Each passes the turn on about when the other falls
//! asleep, so that a wake-up which can be lost is lost.
ghost use Rattle.std.specs.Prelude.{IfSome};
ghost use Rattle.jm_turn.specs.Seats.{IsSeatOf};

use crate::rounds::{lock_of_two, pair};
use crate::tally::{Add, Tally};
use jm_turn::{Act, Lock, Seat};
use std::alloc::Global;
use std::sync::Wait;
use std::sync::atomic::AtomicU64;
use std::thread;
use std::thread::Threads;
use std::time::Duration;

/// The shortest turn, in microseconds. A seat that waits for so long is about to draw its ticket and to sleep.
const SHORTEST: u64 = 13_000;

/// How much longer each turn of a seat is than the one before, in microseconds.
const LONGER: u64 = 97;

/// How many turns each seat has.
const TURNS: u32 = 20;

/// Adds the caller's number after so many microseconds.
struct SlowAdd<'a, R: Wait> {
    rt: &'a R,
    micros: u64,
    add: Add,
}

impl<'a, R: Wait> Act<Tally> for SlowAdd<'a, R> {
    type Answer = u64;

    ghost use Rattle.std.specs.Prelude.{◌≡◌, ◌%◌, ◌^◌, ℕ, List, length};

    ghost number = { λ a. a.add.caller };

    ghost suits = { λ a f. Unit {0} };

    ghost relates = { λ a f before answer after. answer ≡ length before % 2 ^ 64 };

    fn caller(&self) -> u32 {
        self.add.caller
    }

    fn run(self, value: &mut Tally) -> u64 {
        let SlowAdd { rt, micros, add } = self;
        AtomicU64::new(0).park_timeout(rt, 0, Duration::from_micros(micros));
        add.run(value)
    }
}

// A seat has its slow turns, the first of them the shortest.
fn slow_turns<R: Wait>(
    rt: &R,
    alloc: Global,
    lock: &Lock<Tally>,
    mut seat: Seat<Tally>,
) -> Option<Seat<Tally>>
    requires { IsSeatOf lock.now seat }
    ensures { IfSome result (λ s. IsSeatOf lock.now s) }
{
    for turn in 0..TURNS {
        let add = Add::new(alloc, seat.number())?;
        let micros = SHORTEST + LONGER * u64::from(turn);
        lock.turn(rt, &mut seat, SlowAdd { rt, micros, add });
    }
    Some(seat)
}

// Two seats have slow turns, on two threads. How many turns there were.
fn slow_pair<R: Threads + Wait + Sync>(rt: &R, alloc: Global) -> Option<u64> {
    let (lock, first, second) = lock_of_two(alloc)?;
    let (a, b) = thread::join(
        rt,
        || -> Option<Seat<Tally>>
            requires { IsSeatOf lock first }
            ensures { IfSome result (λ s. IsSeatOf lock s) }
        { slow_turns(rt, alloc, &lock, first) },
        || -> Option<Seat<Tally>>
            requires { IsSeatOf lock second }
            ensures { IfSome result (λ s. IsSeatOf lock s) }
        { slow_turns(rt, alloc, &lock, second) },
    );
    let seats = pair(alloc, a?, b?)?;
    Some(lock.close(seats).turns)
}

/// So many locks at once, each with two seats that have slow turns. How many turns there were.
pub(crate) fn slow_pairs<R: Threads + Wait + Sync>(
    rt: &R,
    alloc: Global,
    locks: usize,
) -> Option<u64> {
    let all = thread::map_indices(rt, alloc, locks, &|_k: usize| slow_pair(rt, alloc)).ok()?;
    let mut turns = 0u64;
    for one in all {
        turns = turns.wrapping_add(one?);
    }
    Some(turns)
}
