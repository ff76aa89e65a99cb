ghost use Rattle.std.specs.Prelude.{ℕ, ◌≡◌, ◌<◌, ◌↔◌, true, All, Contains, IfOk, length};
ghost use Rattle.jm_coenable.specs.Needs.{IsArrival, IsFirst, set_at};
ghost use Rattle.jm_coenable.specs.Rounds.{IsPart, AreArrivals, IsSpreadAt, IsSpreadState, IsSpread};

use crate::mask_set::MaskSet;
use crate::property::{is_first, step};
use crate::sets::{empty_sets, put};
use jm_goal::Goal;
use jm_model::{Letter, NoMemory};
use jm_table::Table;
use std::alloc::Global;

/// For each state the last letters of the words that lead from the start to it, and may begin as they do.
///
/// The work goes on from the start in rounds until nothing changes.
pub(crate) fn last_letters(
    alloc: Global,
    table: &Table,
    goal: &Goal,
) -> Result<Vec<MaskSet>, NoMemory>
    requires groups { All (λ group. group < length table.now.groups) goal.now.groups }
    ensures count { IfOk result (λ sets. length sets.items ≡ table.now.states) }
    ensures exact { IfOk result (λ sets. (state last : ℕ) → state < table.now.states →
        Contains (set_at sets.items state) last ↔ IsArrival table.now goal.now state last) }
{
    let mut arrivals = empty_sets(alloc, table.len())?;
    while go_on(table, goal, &mut arrivals) {}
    Ok(arrivals)
}

/// One round over the states. Whether it changed a set.
fn go_on(table: &Table, goal: &Goal, arrivals: &mut Vec<MaskSet>) -> bool
    requires groups { All (λ group. group < length table.now.groups) goal.now.groups }
    requires count { length arrivals.old.items ≡ table.now.states }
    ensures { IsPart (AreArrivals table.now goal.now)
        (IsSpread table.now goal.now) arrivals.old.items arrivals.new.items result }
{
    let mut changed = false;
    for state in 0..table.len() {
        let more = propagate(table, goal, arrivals, state);
        changed |= more;
    }
    changed
}

/// The part of a round for a state.
fn propagate(table: &Table, goal: &Goal, arrivals: &mut Vec<MaskSet>, state: u16) -> bool
    requires groups { All (λ group. group < length table.now.groups) goal.now.groups }
    requires count { length arrivals.old.items ≡ table.now.states }
    requires state { state < table.now.states }
    ensures { IsPart (AreArrivals table.now goal.now)
        (IsSpreadState table.now goal.now state) arrivals.old.items arrivals.new.items result }
{
    let mut changed = false;
    for letter in 0..table.letters() {
        let more = arrive(table, goal, arrivals, state, Letter(letter));
        changed |= more;
    }
    changed
}

/// The part of a round for a letter of a state: whether a word that leads to the state, or the letter alone, arrives.
fn arrive(
    table: &Table,
    goal: &Goal,
    arrivals: &mut Vec<MaskSet>,
    state: u16,
    letter: Letter,
) -> bool
    requires groups { All (λ group. group < length table.now.groups) goal.now.groups }
    requires count { length arrivals.old.items ≡ table.now.states }
    requires state { state < table.now.states }
    requires letter { letter.0 < table.now.letters }
    ensures { IsPart (AreArrivals table.now goal.now)
        (IsSpreadAt table.now goal.now state letter.0) arrivals.old.items arrivals.new.items result }
{
    let next = step(table, goal, state, letter);
    let letters = table.letters();
    let first = begins(goal, state, letter);
    let mut changed = put(arrivals, first, next, letter.0);
    for last in 0..letters {
        let wanted = arrivals[state as usize].contains(last);
        let more = put(arrivals, wanted, next, letter.0);
        changed |= more;
    }
    changed
}

/// Whether a word may begin with the letter in the state.
fn begins(goal: &Goal, state: u16, letter: Letter) -> bool
    requires { letter.0 < 32 }
    ensures { (result ≡ true) ↔ ((state ≡ 0) × IsFirst goal.now letter.0) }
{
    state == 0 && is_first(goal, letter)
}
