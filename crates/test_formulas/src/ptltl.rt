//! Past-time formulas.

ghost use Rattle.std.specs.Prelude.{◌≡◌, length};

use jm_events::EventTable;
use jm_model::SpecError;
use jm_ptltl::{Past, read};
use jm_table::Table;
use std::alloc::{AllocError, Global};
use testkit::Case;
use testkit_tokens::{events_of, names_text, or_fault, tokens_of, words_text};

/// The categories that hold of each word of a case, over its events, or the names of all, or the fault of its formula.
pub(crate) fn answer(alloc: Global, case: &Case) -> Result<String, AllocError> {
    or_fault(alloc, case_text(alloc, case))
}

fn case_text(alloc: Global, case: &Case) -> Result<String, SpecError> {
    let events = events_of(alloc, &case.first)?;
    formula_text(alloc, case, &events)
}

fn formula_text(alloc: Global, case: &Case, events: &EventTable) -> Result<String, SpecError> {
    let past = past_of(alloc, events, &case.text)?;
    match case.verb.as_str() {
        "ptltl_categories" => categories_text(alloc, &past),
        _ => table_text(alloc, case, events, &past),
    }
}

fn categories_text(alloc: Global, past: &Past) -> Result<String, SpecError> {
    let names = past.categories(alloc)?;
    Ok(names_text(alloc, &names)?)
}

fn table_text(
    alloc: Global,
    case: &Case,
    events: &EventTable,
    past: &Past,
) -> Result<String, SpecError> {
    let table = past.compile(alloc, events)?;
    held_text(alloc, case, past, &table)
}

fn held_text(alloc: Global, case: &Case, past: &Past, table: &Table) -> Result<String, SpecError>
    requires { length table.now.groups ≡ 2 }
{
    let names = past.categories(alloc)?;
    Ok(words_text(alloc, &names, table, &case.second)?)
}

/// The formula of a text, which stands after a token on line 50.
fn past_of(alloc: Global, events: &EventTable, formula: &[u8]) -> Result<Past, SpecError> {
    let all = tokens_of(alloc, formula)?;
    read(alloc, formula, &all, 50, events)
}
