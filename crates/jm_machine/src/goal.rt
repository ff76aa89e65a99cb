//! What the rules of a specification are run for.
ghost use Rattle.std.specs.Prelude.{ℕ, ◌≡◌, ◌<◌, ◌≤◌, ◌^◌, ◌-◌, ◌↔◌, ◌⊎◌, Some, false, IsTrue, IsBitSet, IfOk, IfErr, length, map};
ghost use Rattle.jm_events.specs.Names.{number_of};
ghost use Rattle.jm_events.specs.Events.{IsCreation};
ghost use Rattle.jm_machine.specs.Handlings.{IsHandling};
ghost use Rattle.jm_machine.specs.PropertyMeanings.{must_bind_of};
ghost use Rattle.jm_machine.specs.CompiledProperties.{may_begin};

use crate::handlers::groups_of;
use crate::handling::Handling;
use jm_events::EventTable;
use jm_goal::Goal;
use jm_model::{Letter, SpecError};
use jm_spec::SpecTree;
use std::alloc::Global;

/// The goal of a property's handlers, over the events of the tree.
pub(crate) fn goal_of(
    alloc: Global,
    tree: &SpecTree,
    handling: &Handling,
) -> Result<Goal, SpecError>
    requires { IsHandling tree.now.full_binding handling.now }
    ensures groups { IfOk result (λ goal. map Some goal.groups
        ≡ map (number_of handling.now.categories) handling.now.handlers) }
    ensures creation { IfOk result (λ goal. (k : ℕ) → IsBitSet goal.creation k ↔ IsCreation tree.now.table k) }
    ensures must_bind { IfOk result (λ goal. goal.must_bind ≡ must_bind_of tree.now.table tree.now.full_binding) }
    ensures resets { IfOk result (λ goal. goal.resets ≡ handling.now.resets) }
    ensures err { IfErr result (λ e. e ≡ SpecError.NoMemory) }
{
    let groups = groups_of(alloc, &handling.categories, &handling.handlers)?;
    let must_bind = must_bind_of(&tree.table, tree.full_binding);
    Ok(Goal::new(groups, tree.table.creation(), must_bind, handling.resets))
}

/// All parameters where the specification is for full bindings alone, else none.
fn must_bind_of(table: &EventTable, full_binding: bool) -> u8
    ensures { result ≡ must_bind_of table.now full_binding }
{
    if full_binding {
        all_below(table.params())
    } else {
        0
    }
}

/// The mask of the given number of bits.
fn all_below(count: u8) -> u8
    requires { count ≤ 8 }
    ensures { result ≡ 2 ^ count - 1 }
{
    ((1u16 << count) - 1) as u8
}

/// Whether a word may begin with the letter: it is a creation letter, or there is none.
pub(crate) fn may_begin(goal: &Goal, letter: Letter) -> bool
    requires { letter.0 < 32 }
    ensures { IsTrue result ↔ may_begin goal.now letter.0 }
{
    let creation = goal.creation();
    creation == 0 || contains(creation, letter.0)
}

/// Whether the set, of which bit k stands for number k, has this number.
pub(crate) fn contains(set: u32, number: u8) -> bool
    requires { number < 32 }
    ensures { IsTrue result ↔ IsBitSet set number }
{
    (set >> number) % 2 == 1
}
