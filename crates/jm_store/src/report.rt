//! The answer of an event.
ghost use Rattle.std.specs.Prelude.{◌≡◌, ◌≢◌, ◌<◌, ◌≤◌, ◌^◌, ◌++◌, ℕ, AllPairs, List, [], ◌∷◌, IfOk, OnOk};
ghost use Rattle.std.specs.List.Sorted.{IsPermutation, IsSortedBy};
ghost use Rattle.std.specs.Ordering.{is_lt};
ghost use Rattle.jm_semantics.specs.Answers.{firing_cmp};
ghost use Rattle.jm_monitors.specs.Steps.{IsReport};
ghost use Rattle.jm_store.specs.Moves.{reached_by};
ghost use Rattle.jm_store.specs.Reports.{firings_below, AreHitsOf};

use crate::moves::Move;
use jm_model::{Binding, Firing, Firings, Monitor, NoMemory};
use std::alloc::Global;

/// The handlers that the monitors' states hit, in the order of firings. A monitor is left out where its instance
/// doesn't bind what a reported instance has to bind.
pub(crate) fn report<M: Monitor>(
    alloc: Global,
    rules: &M,
    moves: &[Move<M::State>],
) -> Result<Firings, NoMemory>
    ensures { IfOk result (λ firings. AllPairs (λ r s. r.instance ≢ s.instance) (reached_by moves.now)
        → IsReport (M.meaning (M.definition rules.now)) (M.StandsFor rules.now) (reached_by moves.now) firings) }
{
    let firings = list_hits(alloc, rules, moves)?;
    if firings.len() > 1 {
        let sorted = in_order(alloc, &firings)?;
        return Ok(sorted);
    }
    Ok(firings)
}

/// The handlers that the monitors' states hit, monitor by monitor, in the order of the moves. A monitor is left out
/// where its instance doesn't bind what a reported instance has to bind.
fn list_hits<M: Monitor>(
    alloc: Global,
    rules: &M,
    moves: &[Move<M::State>],
) -> Result<Firings, NoMemory>
    ensures { IfOk result (λ firings. AllPairs (λ r s. r.instance ≢ s.instance) (reached_by moves.now)
        → AreHitsOf (M.meaning (M.definition rules.now)) (M.StandsFor rules.now) (reached_by moves.now) firings) }
{
    let must_bind = rules.must_bind();
    let mut firings = Firings::new(alloc);
    for step in moves {
        if must_bind & step.monitor.instance.mask() == must_bind {
            report_hits(
                &mut firings,
                &step.monitor.instance,
                rules.hits(&step.monitor.state),
            )?;
        }
    }
    Ok(firings)
}

/// The firings in their order.
fn in_order(alloc: Global, firings: &Firings) -> Result<Firings, NoMemory>
    ensures permutation { IfOk result (λ sorted. IsPermutation firings.now sorted) }
    ensures ordered { IfOk result (λ sorted. IsSortedBy (λ f g. is_lt (firing_cmp f g)) sorted) }
{
    let mut list = list_of(alloc, firings)?;
    list.sort_unstable_by(|f, g| f.instance.cmp(&g.instance).then(f.handler.cmp(&g.handler)));
    let mut sorted = Firings::new(alloc);
    for firing in &list {
        sorted.push(*firing)?;
    }
    Ok(sorted)
}

/// The firings as a vector.
fn list_of(alloc: Global, firings: &Firings) -> Result<Vec<Firing>, NoMemory>
    ensures { IfOk result (λ list. list.items ≡ firings.now) }
{
    let mut list = Vec::new(alloc);
    for i in 0..firings.len() {
        list.push(firings.get(i))?;
    }
    Ok(list)
}

/// The handlers that the state of one monitor hits, in their order; none where its instance doesn't bind what a
/// reported instance has to bind.
#[inline(always)]
pub(crate) fn report_one<M: Monitor>(
    alloc: Global,
    rules: &M,
    instance: &Binding,
    state: &M::State,
) -> Result<Firings, NoMemory>
    ensures { IfOk result (λ firings. IsReport (M.meaning (M.definition rules.now)) (M.StandsFor rules.now)
        (record { instance = instance.now; state = state.now } ∷ []) firings) }
{
    let mut firings = Firings::new(alloc);
    let must_bind = rules.must_bind();
    if must_bind & instance.mask() == must_bind {
        report_hits(&mut firings, instance, rules.hits(state))?;
    }
    Ok(firings)
}

/// Adds a firing of the instance for each handler whose bit is set.
fn report_hits(firings: &mut Firings, instance: &Binding, hits: u16) -> Result<(), NoMemory>
    ensures { OnOk result (firings.new ≡ firings.old ++ firings_below instance.now hits 16) }
{
    if hits == 0 {
        return Ok(());
    }
    for handler in 0..room_of(hits) {
        if (hits >> handler) % 2 == 1 {
            firings.push(Firing {
                instance: *instance,
                handler,
            })?;
        }
    }
    Ok(())
}

/// A number of handlers that hits have room in.
#[inline(always)]
fn room_of(hits: u16) -> u8
    ensures room { hits < 2 ^ result }
    ensures bounded { result ≤ 16 }
{
    if hits < 2 {
        return 1;
    }
    if hits < 16 {
        return 4;
    }
    16
}
