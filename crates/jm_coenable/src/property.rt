ghost use Rattle.std.specs.Prelude.{ℕ, ◌≡◌, ◌==◌, ◌<◌, ◌↔◌, ◌&&◌, Some, All, IsTrue, length, slice_get};
ghost use Rattle.std.specs.Int.{bit_at};
ghost use Rattle.jm_coenable.specs.Needs.{IsHandled, IsFirst, is_in_group, is_reset, step_of};
ghost use Rattle.jm_goal.specs.Goals.{most_handlers};

use jm_goal::Goal;
use jm_model::Letter;
use jm_table::Table;

/// Whether a state is in the group of a handler.
pub(crate) fn is_handled(table: &Table, goal: &Goal, state: u16) -> bool
    requires state { state < table.now.states }
    requires groups { All (λ group. group < length table.now.groups) goal.now.groups }
    ensures { IsTrue result ↔ IsHandled table.now goal.now state }
{
    for handler in 0..goal.handlers() {
        if table.in_group(state, goal.group(handler)) {
            return true;
        }
    }
    false
}

/// Whether a word may begin with a letter.
pub(crate) fn is_first(goal: &Goal, letter: Letter) -> bool
    requires { letter.0 < 32 }
    ensures { IsTrue result ↔ IsFirst goal.now letter.0 }
{
    let creation = goal.creation();
    creation == 0 || contains(creation, letter.0)
}

/// The state that a letter leads to: from the start where a handler that resets is hit at the state, and else from the
/// state. The table is a property's, and the goal has the group of each of its handlers.
pub fn step(table: &Table, goal: &Goal, state: u16, letter: Letter) -> u16
    requires state { state < table.now.states }
    requires letter { letter.0 < table.now.letters }
    requires groups { All (λ group. group < length table.now.groups) goal.now.groups }
    ensures value { result ≡ step_of table.now goal.now state letter.0 }
    ensures within { result < table.now.states }
{
    if is_reset(table, goal, state) {
        table.next(table.start(), letter)
    } else {
        table.next(state, letter)
    }
}

/// Whether a handler that resets is hit at the state.
fn is_reset(table: &Table, goal: &Goal, state: u16) -> bool
    requires state { state < table.now.states }
    requires groups { All (λ group. group < length table.now.groups) goal.now.groups }
    ensures { result ≡ is_reset table.now goal.now state }
{
    for handler in 0..goal.handlers() {
        if resets(table, goal, state, handler) {
            return true;
        }
    }
    false
}

/// Whether this handler resets, and is hit at the state.
fn resets(table: &Table, goal: &Goal, state: u16, handler: u8) -> bool
    requires state { state < table.now.states }
    requires groups { All (λ group. group < length table.now.groups) goal.now.groups }
    requires bounded { handler < most_handlers }
    requires handler { handler < length goal.now.groups }
    ensures { (group : ℕ) → slice_get goal.now.groups handler ≡ Some group →
        result ≡ ((bit_at goal.now.resets handler == 1) && is_in_group table.now state group) }
{
    contains(u32::from(goal.resets()), handler) && table.in_group(state, goal.group(handler))
}

/// Whether the set, of which bit k stands for number k, has this number.
fn contains(set: u32, number: u8) -> bool
    requires { number < 32 }
    ensures { result ≡ (bit_at set number == 1) }
{
    (set >> number) % 2 == 1
}
