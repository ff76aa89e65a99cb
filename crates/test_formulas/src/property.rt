//! The events, the table and the goal of a case.
ghost use Rattle.std.specs.Prelude.{◌≡◌, [], ◌∷◌, length, IfOk};

use jm_ere::read;
use jm_events::EventTable;
use jm_goal::Goal;
use jm_model::{NoMemory, SpecError};
use jm_table::Table;
use std::alloc::Global;
use testkit_tokens::tokens_of;

/// The events of a text, as `create/3`, of which a `+` in front makes a creation event, over eight parameters.
pub(crate) fn events_of(alloc: Global, text: &str) -> Result<EventTable, SpecError> {
    let mut events = EventTable::new(alloc);
    for name in ["p0", "p1", "p2", "p3", "p4", "p5", "p6", "p7"] {
        events.add_param(name, 1)?;
    }
    for word in text.split_whitespace() {
        add_event(&mut events, word)?;
    }
    Ok(events)
}

fn add_event(events: &mut EventTable, word: &str) -> Result<(), SpecError> {
    let (name, mask) = word.split_once('/').unwrap_or((word, "0"));
    let mask = mask.parse::<u8>().unwrap_or(0);
    if events.params() == 8 {
        let creation = name.starts_with('+');
        events.add_event(name.strip_prefix('+').unwrap_or(name), mask, creation, 1)?;
    }
    Ok(())
}

/// The table of an expression.
pub(crate) fn table_of(
    alloc: Global,
    events: &EventTable,
    formula: &[u8],
) -> Result<Table, SpecError>
    ensures { IfOk result (λ table. length table.groups ≡ 2) }
{
    let all = tokens_of(alloc, formula)?;
    let ere = read(alloc, formula, &all, 1, events)?;
    ere.compile(alloc, events)
}

/// One handler, for the words of the expression, which may reset the property.
pub(crate) fn goal_of(alloc: Global, creation: u32, resetting: bool) -> Result<Goal, NoMemory>
    ensures { IfOk result (λ goal. goal.groups ≡ 0 ∷ []) }
{
    let groups = vec![in alloc; 0u16; 1]?;
    let resets = if resetting { 1 } else { 0 };
    Ok(Goal::new(groups, creation, 0, resets))
}
