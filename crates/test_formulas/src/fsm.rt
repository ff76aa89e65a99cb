//! State machines.

ghost use Rattle.std.specs.Prelude.{◌≡◌, length};
ghost use Rattle.jm_fsm.specs.Categories.{category_count};

use jm_events::EventTable;
use jm_fsm::{Fsm, read};
use jm_model::SpecError;
use jm_table::Table;
use std::alloc::{AllocError, Global};
use testkit::Case;
use testkit_tokens::{events_of, names_text, or_fault, tokens_of, words_text};

/// The categories that hold of each word of a case, over its events, or the names of all, or the fault of its machine.
pub(crate) fn answer(alloc: Global, case: &Case) -> Result<String, AllocError> {
    or_fault(alloc, case_text(alloc, case))
}

fn case_text(alloc: Global, case: &Case) -> Result<String, SpecError> {
    let events = events_of(alloc, &case.first)?;
    formula_text(alloc, case, &events)
}

fn formula_text(alloc: Global, case: &Case, events: &EventTable) -> Result<String, SpecError> {
    let machine = machine_of(alloc, events, &case.text)?;
    match case.verb.as_str() {
        "fsm_categories" => categories_text(alloc, &machine),
        _ => table_text(alloc, case, events, &machine),
    }
}

fn categories_text(alloc: Global, machine: &Fsm) -> Result<String, SpecError> {
    let names = machine.categories(alloc)?;
    Ok(names_text(alloc, &names)?)
}

fn table_text(
    alloc: Global,
    case: &Case,
    events: &EventTable,
    machine: &Fsm,
) -> Result<String, SpecError> {
    let table = machine.compile(alloc, events)?;
    held_text(alloc, case, machine, &table)
}

fn held_text(alloc: Global, case: &Case, machine: &Fsm, table: &Table) -> Result<String, SpecError>
    requires { length table.now.groups ≡ category_count machine.now }
{
    let names = machine.categories(alloc)?;
    Ok(words_text(alloc, &names, table, &case.second)?)
}

/// The machine of a formula, which stands after a token on line 50.
fn machine_of(alloc: Global, events: &EventTable, formula: &[u8]) -> Result<Fsm, SpecError> {
    let all = tokens_of(alloc, formula)?;
    read(alloc, formula, &all, 50, events)
}
