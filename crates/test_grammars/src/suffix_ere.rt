//! Regular expressions.

ghost use Rattle.std.specs.Prelude.{◌≡◌, length};

use jm_ere::{Ere, read};
use jm_events::EventTable;
use jm_model::SpecError;
use jm_suffix::suffix_ere;
use jm_table::Table;
use std::alloc::{AllocError, Global};
use testkit::Case;
use testkit_tokens::{events_of, or_fault, tokens_of, words_text};

/// The categories that hold of each word of a case, where the rule of its expression may begin anywhere, or the
/// expression's fault.
pub(crate) fn answer(alloc: Global, case: &Case) -> Result<String, AllocError> {
    or_fault(alloc, case_text(alloc, case))
}

fn case_text(alloc: Global, case: &Case) -> Result<String, SpecError> {
    let events = events_of(alloc, &case.first)?;
    formula_text(alloc, case, &events)
}

fn formula_text(alloc: Global, case: &Case, events: &EventTable) -> Result<String, SpecError> {
    let written = ere_of(alloc, events, &case.text)?;
    let ere = suffix_ere(alloc, written.copy(alloc)?)?;
    let table = ere.compile(alloc, events)?;
    held_text(alloc, case, &ere, &table)
}

fn held_text(alloc: Global, case: &Case, ere: &Ere, table: &Table) -> Result<String, SpecError>
    requires { length table.now.groups ≡ 2 }
{
    let names = ere.categories(alloc)?;
    Ok(words_text(alloc, &names, table, &case.second)?)
}

/// The expression of a formula, which stands after a token on line 50.
fn ere_of(alloc: Global, events: &EventTable, formula: &[u8]) -> Result<Ere, SpecError> {
    let all = tokens_of(alloc, formula)?;
    read(alloc, formula, &all, 50, events)
}
