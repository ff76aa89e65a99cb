//! The workers: each has the seats of one caller, and a thread of its own where one can be had. Where scripts may wait
//! for each other, each needs one.
ghost use Rattle.std.specs.Prelude.{◌≡◌, ◌↔◌, ℕ, [], All, IsTrue, IfOk, Ok, Some, map, slice_get, vec_len};
ghost use Rattle.jm_sync.specs.Checks.{sync_of};
ghost use Rattle.jm_runner.specs.Notes.{IsNamed};
ghost use Rattle.jm_runner.specs.Hands.{CanWork, HasWorked};
ghost use denote.Param.Send.{IsSend, IsSync};

use crate::gate::Gate;
use crate::notices::Notices;
use crate::parcel::{Naming, Parcel};
use crate::worker::{Hand, work};
use jm_dispatch::{Watch, Watched};
use jm_model::{Monitor, NoMemory};
use jm_sync::{Board, Cut, GaveUp};
use jm_turn::Lock;
use std::alloc::Global;
use std::marker::PhantomData;
use std::snapshot::Snapshot;
use std::sync::Wait;
use std::thread::{Promise, Threads};
use std::{mem, thread};

/// One for each script at most.
const THREADS: usize = 16;

/// What a worker's thread gives back: a hand whose seats have done the script of this one, where there was memory for
/// it.
#[derive(Drop)]
struct Works<M: Monitor, J: Naming<M::Definition>> {
    before: Snapshot<Hand<M>>,
    of: PhantomData<J>,
}

impl<M: Monitor, J: Naming<M::Definition>> Promise<Result<Hand<M>, NoMemory>> for Works<M, J> {
    ghost use Rattle.std.specs.Prelude.{IfOk};
    ghost use Rattle.jm_runner.specs.Hands.{HasWorked};

    ghost kept_by = { λ p r. IfOk r (λ back. HasWorked
        J.watches J.scripts J.cuts p.before.value.seats.items back.seats.items) };
}

/// All workers do their scripts. Each gets the hand of one caller, and gives it back with no line left to do. Where
/// some script asks for order each worker has a thread of its own, or the answer is NoMemory; elsewhere the caller does
/// what no thread can be had for.
pub(crate) fn work_all<
    M: Monitor + Send,
    J: Naming<M::Definition> + Send + Sync,
    G: Gate,
    R: Threads + Wait + Sync,
>(
    rt: &R,
    alloc: Global,
    watches: &[Watch<M>],
    cuts: &[Cut],
    notices: &Notices<M, J>,
    hands: Vec<Hand<M>>,
    gate: &G,
) -> Result<Vec<Hand<M>>, NoMemory>
where
    M::State: Send,
    requires hands { All (λ h. CanWork M.meaning watches.now J.scripts h.seats.items h.lines) hands.items }
    requires named { IsNamed J.scripts J.cuts J.watches (sync_of cuts.now) watches.now notices.now }
    ensures count { IfOk result (λ back. vec_len back ≡ vec_len hands) }
    ensures worked { IfOk result (λ back. (k : ℕ) (before : _) (after : _) → slice_get hands.items k ≡ Some before
        → slice_get back.items k ≡ Some after
        → HasWorked watches.now J.scripts (sync_of cuts.now) before.seats.items after.seats.items) }
{
    if ask_for_nothing(cuts) {
        work_unordered(rt, alloc, watches, cuts, notices, hands, gate)
    } else {
        work_ordered(rt, alloc, watches, cuts, notices, hands, gate)
    }
}

/// Whether no script has a line that asks for order.
fn ask_for_nothing(cuts: &[Cut]) -> bool
    ensures { IsTrue result ↔ All (λ cut. cut.lines.items ≡ []) cuts.now }
{
    cuts.iter().all(|cut| cut.lines.is_empty())
}

/// Workers do scripts that ask for order, each on a thread of its own. Where one can't be had all names are given up,
/// so that no worker waits for one that never begins. The answer then is NoMemory, once those that were begun have
/// ended.
fn work_ordered<
    M: Monitor + Send,
    J: Naming<M::Definition> + Send + Sync,
    G: Gate,
    R: Threads + Wait + Sync,
>(
    rt: &R,
    alloc: Global,
    watches: &[Watch<M>],
    cuts: &[Cut],
    notices: &Notices<M, J>,
    hands: Vec<Hand<M>>,
    gate: &G,
) -> Result<Vec<Hand<M>>, NoMemory>
where
    M::State: Send,
    requires hands { All (λ h. CanWork M.meaning watches.now J.scripts h.seats.items h.lines) hands.items }
    requires named { IsNamed J.scripts J.cuts J.watches (sync_of cuts.now) watches.now notices.now }
    ensures count { IfOk result (λ back. vec_len back ≡ vec_len hands) }
    ensures worked { IfOk result (λ back. (k : ℕ) (before : _) (after : _) → slice_get hands.items k ≡ Some before
        → slice_get back.items k ≡ Some after
        → HasWorked watches.now J.scripts (sync_of cuts.now) before.seats.items after.seats.items) }
{
    thread::scope(
        thread::scope_env(),
        rt,
        |scope| -> Result<Vec<Hand<M>>, NoMemory>
            requires sent { IsSend M.row × IsSend J.row × IsSend M.State.row }
            requires shared { IsSync J.row × IsSync G.row × IsSync R.row }
            requires hands { All (λ h. CanWork M.meaning watches.now J.scripts h.seats.items h.lines) hands.items }
            requires named { IsNamed
                J.scripts J.cuts J.watches (sync_of cuts.now) watches.now notices.now }
            ensures count { IfOk result (λ back. vec_len back ≡ vec_len hands) }
            ensures worked { IfOk result (λ back. (k : ℕ) (before : _) (after : _)
                → slice_get hands.items k ≡ Some before → slice_get back.items k ≡ Some after
                → HasWorked
                watches.entry.now J.scripts (sync_of cuts.entry.now) before.seats.items after.seats.items) }
        {
            let mut workers = Vec::with_capacity(alloc, hands.len())?;
            for hand in hands {
                let promise: Works<M, J> = Works {
                    before: Snapshot::of(&hand),
                    of: PhantomData,
                };
                let started = scope.spawn_with(
                    promise,
                    move || -> Result<Hand<M>, NoMemory>
                        requires can { CanWork M.meaning watches.now J.scripts hand.seats.items hand.lines }
                        requires named { IsNamed
                            J.scripts J.cuts J.watches (sync_of cuts.now) watches.now notices.now }
                        ensures { IfOk result (λ back. HasWorked watches.entry.now J.scripts
                            (sync_of cuts.entry.now) hand.seats.items back.seats.items) }
                    { work_one(rt, alloc, watches, cuts, notices, hand, gate) },
                );
                let Ok(worker) = started else {
                    notices.give_up_all(rt, cuts);
                    return Err(NoMemory);
                };
                let Ok(()) = workers.push(worker) else {
                    notices.give_up_all(rt, cuts);
                    return Err(NoMemory);
                };
            }
            let Ok(back) = thread::join_promised(rt, workers) else {
                return Err(NoMemory);
            };
            all_ok(alloc, back)
        },
    )
}

/// Workers do scripts that ask for no order, each on a thread of its own where one can be had. The caller does the
/// others, one after another.
fn work_unordered<
    M: Monitor + Send,
    J: Naming<M::Definition> + Send + Sync,
    G: Gate,
    R: Threads + Wait + Sync,
>(
    rt: &R,
    alloc: Global,
    watches: &[Watch<M>],
    cuts: &[Cut],
    notices: &Notices<M, J>,
    hands: Vec<Hand<M>>,
    gate: &G,
) -> Result<Vec<Hand<M>>, NoMemory>
where
    M::State: Send,
    requires hands { All (λ h. CanWork M.meaning watches.now J.scripts h.seats.items h.lines) hands.items }
    requires named { IsNamed J.scripts J.cuts J.watches (sync_of cuts.now) watches.now notices.now }
    ensures count { IfOk result (λ back. vec_len back ≡ vec_len hands) }
    ensures worked { IfOk result (λ back. (k : ℕ) (before : _) (after : _) → slice_get hands.items k ≡ Some before
        → slice_get back.items k ≡ Some after
        → HasWorked watches.now J.scripts (sync_of cuts.now) before.seats.items after.seats.items) }
{
    // The workers share the watches and the board. Steps show that they may, since the search for all of it ends at its
    // limit.
    may_be_shared::<Lock<Watched<M>>>();
    may_be_shared::<Watch<M>>();
    may_be_shared::<Board<Parcel<M, J>, GaveUp>>();
    may_be_shared::<Notices<M, J>>();
    let mut slots = all_at_first(alloc, hands)?;
    // No memory is taken from here on until all are done: no work is left out while another waits for it.
    thread::for_each_mut(
        rt,
        &mut slots,
        THREADS,
        &|_k: usize, slot: &mut Result<Hand<M>, NoMemory>|
            requires can { IfOk slot.now (λ h. CanWork M.meaning watches.now J.scripts h.seats.items h.lines) }
            requires named { IsNamed
                J.scripts J.cuts J.watches (sync_of cuts.now) watches.now notices.now }
            ensures { IfOk slot.exit.now (λ back. IfOk slot.entry.now (λ h. HasWorked
                watches.entry.now J.scripts (sync_of cuts.entry.now) h.seats.items back.seats.items)) }
        { work_slot(rt, alloc, watches, cuts, notices, slot, gate) },
    );
    all_ok(alloc, slots)
}

/// Nothing is done: a call shows that values of the type may be shared among threads.
fn may_be_shared<T: Sync>()
    ensures { IsSync T.row }
{}

/// A slot for each of them, which has it at first.
fn all_at_first<T: Drop>(alloc: Global, all: Vec<T>) -> Result<Vec<Result<T, NoMemory>>, NoMemory>
    ensures { IfOk result (λ slots. slots.items ≡ map (λ x. Ok x) all.items) }
{
    let mut slots = Vec::new(alloc);
    for one in all {
        slots.push(Ok(one))?;
    }
    Ok(slots)
}

/// What each of them gave, or NoMemory where one gave up.
fn all_ok<T: Drop>(alloc: Global, all: Vec<Result<T, NoMemory>>) -> Result<Vec<T>, NoMemory>
    ensures { IfOk result (λ values. map (λ x. Ok x) values.items ≡ all.items) }
{
    let mut values = Vec::new(alloc);
    for one in all {
        values.push(one?)?;
    }
    Ok(values)
}

/// The caller whose hand is in the slot does its script, and puts it back, or NoMemory where it gave up.
fn work_slot<M: Monitor, J: Naming<M::Definition>, G: Gate>(
    rt: &impl Wait,
    alloc: Global,
    watches: &[Watch<M>],
    cuts: &[Cut],
    notices: &Notices<M, J>,
    slot: &mut Result<Hand<M>, NoMemory>,
    gate: &G,
)
    requires can { IfOk slot.old (λ h. CanWork M.meaning watches.now J.scripts h.seats.items h.lines) }
    requires named { IsNamed J.scripts J.cuts J.watches (sync_of cuts.now) watches.now notices.now }
    ensures { IfOk slot.new (λ back. IfOk slot.old (λ h. HasWorked
        watches.now J.scripts (sync_of cuts.now) h.seats.items back.seats.items)) }
{
    if let Ok(hand) = mem::replace(slot, Err(NoMemory)) {
        *slot = work_one(rt, alloc, watches, cuts, notices, hand, gate);
    }
}

/// The caller whose hand this is does its script.
fn work_one<M: Monitor, J: Naming<M::Definition>, G: Gate>(
    rt: &impl Wait,
    alloc: Global,
    watches: &[Watch<M>],
    cuts: &[Cut],
    notices: &Notices<M, J>,
    hand: Hand<M>,
    gate: &G,
) -> Result<Hand<M>, NoMemory>
    requires can { CanWork M.meaning watches.now J.scripts hand.seats.items hand.lines }
    requires named { IsNamed J.scripts J.cuts J.watches (sync_of cuts.now) watches.now notices.now }
    ensures { IfOk result (λ back.
        HasWorked watches.now J.scripts (sync_of cuts.now) hand.seats.items back.seats.items) }
{
    let caller = hand.seats[0].number();
    work(
        rt,
        alloc,
        watches,
        caller,
        hand,
        &cuts[caller as usize],
        notices,
        gate,
    )
}
