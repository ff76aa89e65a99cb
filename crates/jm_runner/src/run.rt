ghost use Rattle.std.specs.Prelude.{◌≡◌, ◌≤◌, ℕ, [], All, length, map, vec_len, slice_get, Some, IfOk};
ghost use Rattle.jm_sync.specs.Checks.{sync_of};
ghost use Rattle.jm_runner.specs.Orders.{IsOrdered};
ghost use Rattle.jm_runner.specs.Runs.{AreCuts, CanRun, IsNaming, IsRunOf};
ghost use Rattle.jm_script.specs.Catalogs.{most_specs, most_scripts};

use crate::closing::close_all;
use crate::gate::Gate;
use crate::notices::Notices;
use crate::parcel::Naming;
use crate::table::columns;
use crate::worker::Hand;
use crate::workers::work_all;
use jm_core::Prop;
use jm_dispatch::{Seat, Watch};
use jm_model::{Monitor, NoMemory};
use jm_script::{CompactScript, LineQueue};
use jm_sync::Cut;
use std::alloc::Global;
use std::marker::Brand;
use std::sync::Wait;
use std::thread::Threads;

/// A watch and its seats, in the order of their numbers.
#[derive(Drop)]
pub struct Running<M: Monitor> {
    pub watch: Watch<M>,
    pub seats: Vec<Seat<M>>,
}

/// Runs 1 to 16 scripts over 1 to 16 specifications, and gives the core of each specification. Script k is caller k:
/// its lines are done in order by a worker, a death on every specification in order. Each worker has a thread of its
/// own; where none can be had, some scripts are done one after another. Each line stands between `before` and `after`
/// of the gate. The answer is NoMemory where a worker ran out of memory, which stops it and no other.
///
/// The watches are fresh, each with all its seats, as many as there are scripts. The scripts stay as they are: a run
/// does copies of them, and `run_queues` does without these.
pub fn run_scripts<M: Monitor + Send, G: Gate, R: Threads + Wait + Sync>(
    rt: &R,
    alloc: Global,
    watches: Vec<Running<M>>,
    scripts: &[CompactScript],
    gate: &G,
) -> Result<Vec<Prop<M>>, NoMemory>
where
    M::State: Send,
    requires watches { (1 ≤ vec_len watches) × (vec_len watches ≤ most_specs) }
    requires scripts { (1 ≤ length scripts.now) × (length scripts.now ≤ most_scripts) }
    requires ready { (s : ℕ) (r : _) → slice_get watches.items s ≡ Some r
        → CanRun (M.meaning r.watch.fixed.definition) scripts.now s r.watch r.seats.items }
    ensures count { IfOk result (λ props. vec_len props ≡ vec_len watches) }
    ensures runs { IfOk result (λ props. (s : ℕ) (r : _) (p : _) → slice_get watches.items s ≡ Some r
        → slice_get props.items s ≡ Some p
        → IsRunOf (M.meaning r.watch.fixed.definition) scripts.now s r.watch.fixed p) }
{
    let cuts = no_cuts(alloc, scripts.len())?;
    run_with_notes(rt, alloc, watches, scripts, &cuts, gate)
}

/// Runs scripts as `run_scripts` does, where they ask for order: each has its cut, and no fault is in these. Each
/// history has its entries in that order. A line that posts a name lets the lines that wait for it go on, and tells
/// them what was done above it. A worker that runs out of memory gives up the names that it hasn't posted; so does one
/// that waits for such a name, and the answer is NoMemory. Where some script asks for order each worker needs a thread
/// of its own, and where one can't be had the answer is NoMemory too. That a wait ends is in no clause.
pub fn run_with_notes<M: Monitor + Send, G: Gate, R: Threads + Wait + Sync>(
    rt: &R,
    alloc: Global,
    watches: Vec<Running<M>>,
    scripts: &[CompactScript],
    cuts: &[Cut],
    gate: &G,
) -> Result<Vec<Prop<M>>, NoMemory>
where
    M::State: Send,
    requires watches { (1 ≤ vec_len watches) × (vec_len watches ≤ most_specs) }
    requires scripts { (1 ≤ length scripts.now) × (length scripts.now ≤ most_scripts) }
    requires ready { (s : ℕ) (r : _) → slice_get watches.items s ≡ Some r
        → CanRun (M.meaning r.watch.fixed.definition) scripts.now s r.watch r.seats.items }
    requires cuts { AreCuts (length scripts.now) cuts.now }
    ensures count { IfOk result (λ props. vec_len props ≡ vec_len watches) }
    ensures runs { IfOk result (λ props. (s : ℕ) (r : _) (p : _) → slice_get watches.items s ≡ Some r
        → slice_get props.items s ≡ Some p
        → IsRunOf (M.meaning r.watch.fixed.definition) scripts.now s r.watch.fixed p) }
    ensures ordered { IfOk result (λ props. All (λ p. IsOrdered p.entries (sync_of cuts.now)) props.items) }
{
    let queues = queues_of(alloc, scripts)?;
    run_queues(rt, alloc, watches, queues, cuts, gate)
}

/// Runs scripts as `run_with_notes` does, of which each is a queue of its lines. A line is let go with its block, once
/// all lines of this are done.
pub fn run_queues<M: Monitor + Send, G: Gate, R: Threads + Wait + Sync>(
    rt: &R,
    alloc: Global,
    watches: Vec<Running<M>>,
    scripts: Vec<LineQueue>,
    cuts: &[Cut],
    gate: &G,
) -> Result<Vec<Prop<M>>, NoMemory>
where
    M::State: Send,
    requires watches { (1 ≤ vec_len watches) × (vec_len watches ≤ most_specs) }
    requires scripts { (1 ≤ vec_len scripts) × (vec_len scripts ≤ most_scripts) }
    requires ready { (s : ℕ) (r : _) → slice_get watches.items s ≡ Some r
        → CanRun (M.meaning r.watch.fixed.definition) scripts.items s r.watch r.seats.items }
    requires cuts { AreCuts (vec_len scripts) cuts.now }
    ensures count { IfOk result (λ props. vec_len props ≡ vec_len watches) }
    ensures runs { IfOk result (λ props. (s : ℕ) (r : _) (p : _) → slice_get watches.items s ≡ Some r
        → slice_get props.items s ≡ Some p
        → IsRunOf (M.meaning r.watch.fixed.definition) scripts.items s r.watch.fixed p) }
    ensures ordered { IfOk result (λ props. All (λ p. IsOrdered p.entries (sync_of cuts.now)) props.items) }
{
    run_as::<M, Brand, G, R>(rt, alloc, watches, scripts, cuts, gate)
}

/// Runs queues so, with a naming of this run's own.
fn run_as<
    M: Monitor + Send,
    J: Naming<M::Definition> + Send + Sync,
    G: Gate,
    R: Threads + Wait + Sync,
>(
    rt: &R,
    alloc: Global,
    watches: Vec<Running<M>>,
    scripts: Vec<LineQueue>,
    cuts: &[Cut],
    gate: &G,
) -> Result<Vec<Prop<M>>, NoMemory>
where
    M::State: Send,
    requires watches { (1 ≤ vec_len watches) × (vec_len watches ≤ most_specs) }
    requires scripts { (1 ≤ vec_len scripts) × (vec_len scripts ≤ most_scripts) }
    requires ready { (s : ℕ) (r : _) → slice_get watches.items s ≡ Some r
        → CanRun (M.meaning r.watch.fixed.definition) scripts.items s r.watch r.seats.items }
    requires cuts { AreCuts (vec_len scripts) cuts.now }
    requires naming { IsNaming scripts.items (sync_of cuts.now) (map (λ r. r.watch) watches.items)
        J.scripts J.cuts J.watches }
    ensures count { IfOk result (λ props. vec_len props ≡ vec_len watches) }
    ensures runs { IfOk result (λ props. (s : ℕ) (r : _) (p : _) → slice_get watches.items s ≡ Some r
        → slice_get props.items s ≡ Some p
        → IsRunOf (M.meaning r.watch.fixed.definition) scripts.items s r.watch.fixed p) }
    ensures ordered { IfOk result (λ props. All (λ p. IsOrdered p.entries (sync_of cuts.now)) props.items) }
{
    let notices: Notices<M, J> = Notices::new(alloc, cuts)?;
    let (watches, seats) = part(alloc, watches)?;
    let callers = columns(alloc, seats, scripts.len())?;
    let hands = deal(alloc, callers, scripts)?;
    let done = work_all(rt, alloc, &watches, cuts, &notices, hands, gate)?;
    let back = seats_of(alloc, done)?;
    let seats = columns(alloc, back, watches.len())?;
    close_all(alloc, watches, seats)
}

/// Equal queues of lines.
fn queues_of(alloc: Global, scripts: &[CompactScript]) -> Result<Vec<LineQueue>, NoMemory>
    ensures { IfOk result (λ queues. queues.items ≡ scripts.now) }
{
    let mut queues = Vec::with_capacity(alloc, scripts.len())?;
    for script in scripts {
        queues.push(script.copy(alloc)?.into_queue()?)?;
    }
    Ok(queues)
}

/// A hand for each caller: its seats, and the lines of its script.
fn deal<M: Monitor>(
    alloc: Global,
    seats: Vec<Vec<Seat<M>>>,
    scripts: Vec<LineQueue>,
) -> Result<Vec<Hand<M>>, NoMemory>
    requires { vec_len seats ≡ vec_len scripts }
    ensures seats { IfOk result (λ hands. map (λ h. h.seats) hands.items ≡ seats.items) }
    ensures lines { IfOk result (λ hands. map (λ h. h.lines) hands.items ≡ scripts.items) }
{
    let mut hands = Vec::new(alloc);
    let mut scripts = scripts.into_iter();
    for seats in seats {
        let Some(lines) = scripts.next() else {
            unreachable!()
        };
        hands.push(Hand { seats, lines })?;
    }
    Ok(hands)
}

/// The seats of each hand.
fn seats_of<M: Monitor>(alloc: Global, hands: Vec<Hand<M>>) -> Result<Vec<Vec<Seat<M>>>, NoMemory>
    ensures { IfOk result (λ seats. seats.items ≡ map (λ h. h.seats) hands.items) }
{
    let mut all = Vec::new(alloc);
    for Hand { seats, lines: _ } in hands {
        all.push(seats)?;
    }
    Ok(all)
}

/// So many scripts that ask for nothing.
fn no_cuts(alloc: Global, count: usize) -> Result<Vec<Cut>, NoMemory>
    ensures count { IfOk result (λ cuts. vec_len cuts ≡ count) }
    ensures none { IfOk result (λ cuts. All (λ cut. cut.lines.items ≡ []) cuts.items) }
{
    let mut cuts = Vec::new(alloc);
    for _k in 0..count {
        cuts.push(Cut {
            rest: Vec::new(alloc),
            lines: Vec::new(alloc),
        })?;
    }
    Ok(cuts)
}

/// The watches, and their seats.
fn part<M: Monitor>(
    alloc: Global,
    running: Vec<Running<M>>,
) -> Result<(Vec<Watch<M>>, Vec<Vec<Seat<M>>>), NoMemory>
    ensures watches { IfOk result (λ p. p.0.items ≡ map (λ r. r.watch) running.items) }
    ensures seats { IfOk result (λ p. p.1.items ≡ map (λ r. r.seats) running.items) }
{
    let mut watches = Vec::new(alloc);
    let mut seats = Vec::new(alloc);
    for Running { watch, seats: all } in running {
        watches.push(watch)?;
        seats.push(all)?;
    }
    Ok((watches, seats))
}
