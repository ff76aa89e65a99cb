ghost use Rattle.std.specs.Prelude.{ℕ, ◌≡◌, ◌<◌, ◌↔◌, ◌⊎◌, true, Contains, length};
ghost use Rattle.jm_coenable.specs.Needs.{AreFit, IsFirst};
ghost use Rattle.jm_coenable.specs.Searches.{IsStart, IsStep};

use crate::mask_set::MaskSet;
use crate::property::{is_first, is_handled, step};
use jm_events::EventTable;
use jm_goal::Goal;
use jm_model::Letter;
use jm_table::Table;

/// The parameters of the words that lead from the start to a handled state, and may begin as they do.
pub(crate) fn start_masks(
    table: &Table,
    goal: &Goal,
    events: &EventTable,
    needed: &[MaskSet],
) -> MaskSet
    requires fit { AreFit table.now goal.now events.now }
    requires count { length needed.now ≡ table.now.states }
    ensures { (mask : ℕ) → Contains result mask
        ↔ IsStart table.now goal.now events.now needed.now table.now.letters mask }
{
    let mut start = MaskSet::new();
    for letter in 0..table.letters() {
        add_first(table, goal, events, needed, Letter(letter), &mut start);
    }
    start
}

/// Adds the parameters of the words that begin with a letter, if words may.
fn add_first(
    table: &Table,
    goal: &Goal,
    events: &EventTable,
    needed: &[MaskSet],
    letter: Letter,
    start: &mut MaskSet,
)
    requires fit { AreFit table.now goal.now events.now }
    requires count { length needed.now ≡ table.now.states }
    requires letter { letter.0 < table.now.letters }
    ensures { (mask : ℕ) → Contains start.new mask ↔ (Contains start.old mask
        ⊎ (IsFirst goal.now letter.0 × IsStep table.now goal.now events.now needed.now letter.0 mask)) }
{
    let first = begins(table, goal, letter);
    if first {
        add_step(table, goal, events, needed, letter, start);
    }
}

fn begins(table: &Table, goal: &Goal, letter: Letter) -> bool
    requires { letter.0 < table.now.letters }
    ensures { (result ≡ true) ↔ IsFirst goal.now letter.0 }
{
    letter.0 < table.letters() && is_first(goal, letter)
}

/// Adds the parameters of the words that begin with a letter.
fn add_step(
    table: &Table,
    goal: &Goal,
    events: &EventTable,
    needed: &[MaskSet],
    letter: Letter,
    start: &mut MaskSet,
)
    requires fit { AreFit table.now goal.now events.now }
    requires count { length needed.now ≡ table.now.states }
    requires letter { letter.0 < table.now.letters }
    ensures { (mask : ℕ) → Contains start.new mask ↔ (Contains start.old mask
        ⊎ IsStep table.now goal.now events.now needed.now letter.0 mask) }
{
    let first = table.start();
    let next = step(table, goal, first, letter);
    let params = events.mask(letter);
    let hit = is_handled(table, goal, next);
    start.insert_if(hit, params);
    start.insert_joined(params, &needed[next as usize]);
}
