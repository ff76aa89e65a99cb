//! Regular expressions.

ghost use Rattle.std.specs.Prelude.{◌≡◌, length, IfOk};

use jm_ere::{Ere, read};
use jm_events::EventTable;
use jm_model::SpecError;
use jm_table::Table;
use std::alloc::{AllocError, Global};
use testkit::Case;
use testkit_tokens::{events_of, is_in, names_text, next, or_fault, states_text, tokens_of};

/// How many states there are and the categories that hold of each word of a case, over its events, or the names of all,
/// or that its expression is read, or the expression's fault.
pub(crate) fn answer(alloc: Global, case: &Case) -> Result<String, AllocError> {
    or_fault(alloc, case_text(alloc, case))
}

fn case_text(alloc: Global, case: &Case) -> Result<String, SpecError> {
    let events = events_of(alloc, &case.first)?;
    formula_text(alloc, case, &events)
}

fn formula_text(alloc: Global, case: &Case, events: &EventTable) -> Result<String, SpecError> {
    let ere = ere_of(alloc, events, &case.text)?;
    match case.verb.as_str() {
        "ere_read" => Ok(String::from_str(alloc, "read")?),
        "ere_categories" => categories_text(alloc, &ere),
        _ => table_text(alloc, case, events, &ere),
    }
}

fn categories_text(alloc: Global, ere: &Ere) -> Result<String, SpecError> {
    let names = ere.categories(alloc)?;
    Ok(names_text(alloc, &names)?)
}

fn table_text(
    alloc: Global,
    case: &Case,
    events: &EventTable,
    ere: &Ere,
) -> Result<String, SpecError> {
    let table = ere.compile(alloc, events)?;
    held_text(alloc, case, ere, &table)
}

fn held_text(alloc: Global, case: &Case, ere: &Ere, table: &Table) -> Result<String, SpecError>
    requires { length table.now.groups ≡ 2 }
{
    let names = ere.categories(alloc)?;
    Ok(states_text(alloc, &names, table, &case.second)?)
}

/// Whether the expressions of a case, the text's and the one after the events, have the same table.
pub(crate) fn same(alloc: Global, case: &Case) -> Result<String, AllocError> {
    or_fault(alloc, same_text(alloc, case))
}

fn same_text(alloc: Global, case: &Case) -> Result<String, SpecError> {
    let events = events_of(alloc, &case.first)?;
    same_over(alloc, case, &events)
}

fn same_over(alloc: Global, case: &Case, events: &EventTable) -> Result<String, SpecError> {
    let table = table_of(alloc, events, &case.text)?;
    same_as(alloc, case, events, &table)
}

fn same_as(
    alloc: Global,
    case: &Case,
    events: &EventTable,
    table: &Table,
) -> Result<String, SpecError>
    requires { length table.now.groups ≡ 2 }
{
    let other = table_of(alloc, events, case.second.as_bytes())?;
    let text = if is_same(table, &other) {
        "same"
    } else {
        "different"
    };
    Ok(String::from_str(alloc, text)?)
}

fn table_of(alloc: Global, events: &EventTable, formula: &[u8]) -> Result<Table, SpecError>
    ensures { IfOk result (λ table. length table.groups ≡ 2) }
{
    let ere = ere_of(alloc, events, formula)?;
    ere.compile(alloc, events)
}

fn is_same(one: &Table, other: &Table) -> bool
    requires one { length one.now.groups ≡ 2 }
    requires other { length other.now.groups ≡ 2 }
{
    let mut same = one.len() == other.len() && one.letters() == other.letters();
    for state in 0..one.len() {
        same = same && is_same_at(one, other, state);
    }
    same
}

/// Whether a state is in the same groups and each letter leads to the same state.
fn is_same_at(one: &Table, other: &Table, state: u16) -> bool
    requires one { length one.now.groups ≡ 2 }
    requires other { length other.now.groups ≡ 2 }
{
    let matched = is_in(one, state, 0) == is_in(other, state, 0);
    let failed = is_in(one, state, 1) == is_in(other, state, 1);
    let mut same = matched && failed;
    for letter in 0..one.letters() {
        same = same && next(one, state, letter) == next(other, state, letter);
    }
    same
}

/// The expression of a formula, which stands after a token on line 50.
fn ere_of(alloc: Global, events: &EventTable, formula: &[u8]) -> Result<Ere, SpecError> {
    let all = tokens_of(alloc, formula)?;
    read(alloc, formula, &all, 50, events)
}
