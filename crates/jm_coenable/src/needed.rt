ghost use Rattle.std.specs.Prelude.{ℕ, ◌≡◌, ◌<◌, ◌↔◌, Contains, IfOk, length};
ghost use Rattle.jm_coenable.specs.Needs.{AreFit, IsNeededFrom, set_at};
ghost use Rattle.jm_coenable.specs.Rounds.{IsPart, AreNeeded, IsClosedAt, IsClosedState, AreClosedStates};

use crate::mask_set::MaskSet;
use crate::property::{is_handled, step};
use crate::sets::{empty_sets, put};
use jm_events::EventTable;
use jm_goal::Goal;
use jm_model::{Letter, NoMemory};
use jm_table::Table;
use std::alloc::Global;

/// For each state the parameters of the words that lead from it to a handled state.
///
/// The work goes back from the handled states in rounds until nothing changes, the last state first, since most letters
/// lead to later states.
pub(crate) fn needed_masks(
    alloc: Global,
    table: &Table,
    goal: &Goal,
    events: &EventTable,
) -> Result<Vec<MaskSet>, NoMemory>
    requires { AreFit table.now goal.now events.now }
    ensures count { IfOk result (λ sets. length sets.items ≡ table.now.states) }
    ensures exact { IfOk result (λ sets. (state mask : ℕ) → state < table.now.states →
        Contains (set_at sets.items state) mask ↔ IsNeededFrom table.now goal.now events.now state mask) }
{
    let mut needed = empty_sets(alloc, table.len())?;
    while go_back(table, goal, events, &mut needed) {}
    Ok(needed)
}

/// One round over the states. Whether it changed a set.
fn go_back(table: &Table, goal: &Goal, events: &EventTable, needed: &mut Vec<MaskSet>) -> bool
    requires fit { AreFit table.now goal.now events.now }
    requires count { length needed.old.items ≡ table.now.states }
    ensures { IsPart (AreNeeded table.now goal.now events.now)
        (AreClosedStates table.now goal.now events.now) needed.old.items needed.new.items result }
{
    let mut changed = false;
    let states = table.len();
    for done in 0..states {
        let more = leave(table, goal, events, needed, states - 1 - done);
        changed |= more;
    }
    changed
}

/// The part of a round for a state.
fn leave(
    table: &Table,
    goal: &Goal,
    events: &EventTable,
    needed: &mut Vec<MaskSet>,
    state: u16,
) -> bool
    requires fit { AreFit table.now goal.now events.now }
    requires count { length needed.old.items ≡ table.now.states }
    requires state { state < table.now.states }
    ensures { IsPart (AreNeeded table.now goal.now events.now)
        (IsClosedState table.now goal.now events.now state) needed.old.items needed.new.items result }
{
    let mut changed = false;
    for letter in 0..table.letters() {
        let more = follow(table, goal, events, needed, state, Letter(letter));
        changed |= more;
    }
    changed
}

/// The part of a round for a letter of a state: what the words that begin with it need.
fn follow(
    table: &Table,
    goal: &Goal,
    events: &EventTable,
    needed: &mut Vec<MaskSet>,
    state: u16,
    letter: Letter,
) -> bool
    requires fit { AreFit table.now goal.now events.now }
    requires count { length needed.old.items ≡ table.now.states }
    requires state { state < table.now.states }
    requires letter { letter.0 < table.now.letters }
    ensures { IsPart (AreNeeded table.now goal.now events.now)
        (IsClosedAt table.now goal.now events.now state letter.0) needed.old.items needed.new.items result }
{
    let next = step(table, goal, state, letter);
    let params = events.mask(letter);
    let hit = is_handled(table, goal, next);
    let mut changed = put(needed, hit, state, params);
    for number in 0..256u16 {
        let mask = number as u8;
        let wanted = needed[next as usize].contains(mask);
        let more = put(needed, wanted, state, params | mask);
        changed |= more;
    }
    changed
}
