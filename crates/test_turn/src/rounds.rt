//! Turns by one thread, by two, and by eight that pass notes round.
ghost use Rattle.std.specs.Prelude.{◌≡◌, ◌<◌, ℕ, ◌∷◌, [], All, IfSome, vec_len};
ghost use Rattle.jm_turn.specs.Seats.{IsSeatOf, newcomer};
ghost use Rattle.test_turn.specs.Chains.{in_order, turns_of};
ghost use Rattle.test_turn.specs.Runners.{HadTurns, IsRunnerOf};

use crate::tally::{Add, Chain, Tally};
use jm_turn::{Act, Lock, Note, Seat};
use std::alloc::Global;
use std::sync::Wait;
use std::thread;
use std::thread::Threads;

type Runner = (Seat<Tally>, Note<Tally>);

pub(crate) fn times(tally: &Tally, caller: u32) -> u64 {
    let mut count = 0u64;
    let mut at = &tally.chain;
    while let Chain::More(by, rest) = at {
        if *by == caller {
            count = count.wrapping_add(1);
        }
        at = rest;
    }
    count
}

fn turns<R: Wait>(
    rt: &R,
    alloc: Global,
    lock: &Lock<Tally>,
    mut seat: Seat<Tally>,
    count: u32,
) -> Option<Seat<Tally>>
    requires { IsSeatOf lock.now seat }
    ensures { IfSome result (λ s. HadTurns seat s count) }
{
    for turn in 0..count {
        let act = Add::new(alloc, seat.number())?;
        lock.turn(rt, &mut seat, act);
    }
    Some(seat)
}

pub(crate) fn lock_of_two(alloc: Global) -> Option<(Lock<Tally>, Seat<Tally>, Seat<Tally>)>
    ensures { IfSome result (λ r. (r.1 ≡ newcomer r.0 0) × (r.2 ≡ newcomer r.0 1) × (r.0.seats ≡ 2)) }
{
    let Ok((lock, mut seats)) = Lock::new(alloc, Tally::new(), 2) else {
        return None;
    };
    let second = seats.pop()?;
    let first = seats.pop()?;
    Some((lock, first, second))
}

pub(crate) fn pair(alloc: Global, a: Seat<Tally>, b: Seat<Tally>) -> Option<Vec<Seat<Tally>>>
    ensures { IfSome result (λ v. v.items ≡ a ∷ b ∷ []) }
{
    let mut seats = Vec::with_capacity(alloc, 2).ok()?;
    seats.push_reserved(a);
    seats.push_reserved(b);
    Some(seats)
}

// Two seats have so many turns each, on two threads.
pub(crate) fn by_two<R: Threads + Wait + Sync>(rt: &R, alloc: Global, count: u32) -> Option<Tally>
    ensures first { IfSome result (λ t. turns_of 0 (in_order t.chain) ≡ count) }
    ensures second { IfSome result (λ t. turns_of 1 (in_order t.chain) ≡ count) }
{
    let (lock, first, second) = lock_of_two(alloc)?;
    let (a, b) = thread::join(
        rt,
        || -> Option<Seat<Tally>>
            requires { IsSeatOf lock first }
            ensures { IfSome result (λ s. HadTurns first s count) }
        { turns(rt, alloc, &lock, first, count) },
        || -> Option<Seat<Tally>>
            requires { IsSeatOf lock second }
            ensures { IfSome result (λ s. HadTurns second s count) }
        { turns(rt, alloc, &lock, second, count) },
    );
    let seats = pair(alloc, a?, b?)?;
    Some(lock.close(seats))
}

// A seat has a turn and makes a note. Another hears it, and its turn finds one entry.
pub(crate) fn heard<R: Wait>(rt: &R, alloc: Global) -> Option<u64> {
    let (lock, mut first, mut second) = lock_of_two(alloc)?;
    let act = Add::new(alloc, first.number())?;
    prove!(act.caller() == first.number());
    lock.turn(rt, &mut first, act);
    let note = lock.note(&mut first);
    lock.hear(&mut second, note);
    Some(lock.turn(rt, &mut second, Add::new(alloc, 1)?))
}

// Gives each seat a note of what the seat before it has seen. The first gets that of the last.
fn passed_round(
    alloc: Global,
    lock: &Lock<Tally>,
    mut seats: Vec<Seat<Tally>>,
) -> Option<Vec<Runner>>
    requires { All (λ s. IsSeatOf lock.now s) seats.items }
    ensures len { IfSome result (λ v. vec_len v ≡ vec_len seats) }
    ensures each { IfSome result (λ v. All (λ r. IsRunnerOf lock.now r) v.items) }
{
    let mut runners = Vec::with_capacity(alloc, seats.len()).ok()?;
    let mut last = seats.pop()?;
    let mut note = lock.note(&mut last);
    for mut seat in seats {
        let next = lock.note(&mut seat);
        runners.push((seat, note)).ok()?;
        note = next;
    }
    runners.push((last, note)).ok()?;
    Some(runners)
}

// Hears the note that has come round, and has turns.
fn run<R: Wait>(
    rt: &R,
    alloc: Global,
    lock: &Lock<Tally>,
    runner: Runner,
    count: u32,
) -> Option<Seat<Tally>>
    requires { IsRunnerOf lock.now runner }
    ensures { IfSome result (λ s. IsSeatOf lock.now s) }
{
    let (mut seat, note) = runner;
    lock.hear(&mut seat, note);
    turns(rt, alloc, lock, seat, count)
}

// All seats that came back, if all did.
fn all_back(
    alloc: Global,
    lock: &Lock<Tally>,
    back: Vec<Option<Seat<Tally>>>,
) -> Option<Vec<Seat<Tally>>>
    requires { All (λ o. IfSome o (λ s. IsSeatOf lock.now s)) back.items }
    ensures len { IfSome result (λ v. vec_len v ≡ vec_len back) }
    ensures each { IfSome result (λ v. All (λ s. IsSeatOf lock.now s) v.items) }
{
    let mut seats = Vec::with_capacity(alloc, back.len()).ok()?;
    for seat in back {
        seats.push(seat?).ok()?;
    }
    Some(seats)
}

// One round: each seat runs on a thread of its own.
fn one_round<R: Threads + Wait + Sync>(
    rt: &R,
    alloc: Global,
    lock: &Lock<Tally>,
    seats: Vec<Seat<Tally>>,
    count: u32,
) -> Option<Vec<Seat<Tally>>>
    requires { All (λ s. IsSeatOf lock.now s) seats.items }
    ensures len { IfSome result (λ v. vec_len v ≡ vec_len seats) }
    ensures each { IfSome result (λ v. All (λ s. IsSeatOf lock.now s) v.items) }
{
    let runners = passed_round(alloc, lock, seats)?;
    let back = thread::map_vec(
        rt,
        runners,
        &|runner: Runner| -> Option<Seat<Tally>>
            requires { IsRunnerOf lock.now runner }
            ensures { IfSome result (λ s. IsSeatOf lock.entry.now s) }
        { run(rt, alloc, lock, runner, count) },
    )
    .ok()?;
    all_back(alloc, lock, back)
}

fn all_rounds<R: Threads + Wait + Sync>(
    rt: &R,
    alloc: Global,
    lock: &Lock<Tally>,
    mut seats: Vec<Seat<Tally>>,
    rounds: u32,
    count: u32,
) -> Option<Vec<Seat<Tally>>>
    requires { All (λ s. IsSeatOf lock.now s) seats.items }
    ensures len { IfSome result (λ v. vec_len v ≡ vec_len seats) }
    ensures each { IfSome result (λ v. All (λ s. IsSeatOf lock.now s) v.items) }
{
    for _round in 0..rounds {
        seats = one_round(rt, alloc, lock, seats, count)?;
    }
    Some(seats)
}

// So many seats pass notes round, and have so many turns in each round.
pub(crate) fn ring<R: Threads + Wait + Sync>(
    rt: &R,
    alloc: Global,
    size: u32,
    rounds: u32,
    count: u32,
) -> Option<Tally>
    requires { (0 < size) × (size < 65536) }
{
    let Ok((lock, seats)) = Lock::new(alloc, Tally::new(), size) else {
        return None;
    };
    let seats = all_rounds(rt, alloc, &lock, seats, rounds, count)?;
    Some(lock.close(seats))
}
