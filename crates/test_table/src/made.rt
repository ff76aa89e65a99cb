//! Tables of two groups that cases describe: by rows, which are the text, or by how many states and letters there are.

ghost use Rattle.std.specs.Prelude.{◌≡◌, ◌<◌, ◌+◌, ◌↔◌, All, IsTrue, IfOk, OnOk, length};

use crate::rows::Rows;
use crate::shown::{counts_text, table_text};
use jm_model::{NoMemory, SpecError};
use jm_table::{Table, build};
use std::alloc::{AllocError, Global};
use testkit::{Case, small_number_of, small_numbers_of};
use testkit_tokens::or_fault;

/// The minimal table of the rows of the text. A case has how many letters there are, and the states of the two
/// groups with a semicolon between them.
pub(crate) fn table(alloc: Global, case: &Case) -> Result<String, AllocError> {
    or_fault(alloc, minimal_text(alloc, case))
}

fn minimal_text(alloc: Global, case: &Case) -> Result<String, SpecError> {
    let next = small_numbers_of(alloc, std::str::from_utf8(&case.text).unwrap_or(""))?;
    let table = table_of(alloc, letters_of(&case.first), next, &case.second)?;
    let table = table.minimise()?;
    Ok(table_text(alloc, &table)?)
}

/// How many states a chain and its minimal table have: the first letter goes on by one up to the last state, which
/// alone is in a group, and the other letters stay. A case has how many states and letters there are.
pub(crate) fn chain(alloc: Global, case: &Case) -> Result<String, AllocError> {
    or_fault(alloc, chain_text(alloc, case))
}

fn chain_text(alloc: Global, case: &Case) -> Result<String, SpecError> {
    let states = small_number_of(&case.first);
    let next = chain_rows(alloc, states, letters_of(&case.second))?;
    let last = format!(in alloc; "{}", states.saturating_sub(1))?;
    counts_text(
        alloc,
        table_of(alloc, letters_of(&case.second), next, &last)?,
    )
}

fn chain_rows(alloc: Global, states: u16, letters: u8) -> Result<Vec<u16>, AllocError> {
    let mut next = Vec::new(alloc);
    for state in 0..states {
        let last = state == states - 1;
        next.push(if last { state } else { state + 1 })?;
        for _stays in 1..letters {
            next.push(state)?;
        }
    }
    Ok(next)
}

/// How many states a circle and its minimal table have: each letter goes on by one, and no state is in a group. A
/// case has how many states and letters there are.
pub(crate) fn circle(alloc: Global, case: &Case) -> Result<String, AllocError> {
    or_fault(alloc, circle_text(alloc, case))
}

fn circle_text(alloc: Global, case: &Case) -> Result<String, SpecError> {
    let next = circle_rows(
        alloc,
        small_number_of(&case.first),
        letters_of(&case.second),
    )?;
    counts_text(alloc, table_of(alloc, letters_of(&case.second), next, "")?)
}

fn circle_rows(alloc: Global, states: u16, letters: u8) -> Result<Vec<u16>, AllocError> {
    let mut next = Vec::new(alloc);
    for state in 0..states {
        let last = state == states - 1;
        for _letter in 0..letters {
            next.push(if last { 0 } else { state + 1 })?;
        }
    }
    Ok(next)
}

/// The table of these rows, with two groups.
fn table_of(alloc: Global, letters: u8, next: Vec<u16>, groups: &str) -> Result<Table, SpecError>
    ensures { IfOk result (λ table. length table.groups ≡ 2) }
{
    let rows = Rows { letters, next };
    let (mut table, _nodes) = build(alloc, &rows, letters.min(32))?;
    let (first, second) = groups.split_once(';').unwrap_or((groups, ""));
    add_group(alloc, &mut table, first)?;
    add_group(alloc, &mut table, second)?;
    Ok(table)
}

/// Adds the group of these states.
fn add_group(alloc: Global, table: &mut Table, states: &str) -> Result<(), NoMemory>
    requires { length table.old.groups < 65535 }
    ensures { OnOk result (length table.new.groups ≡ length table.old.groups + 1) }
{
    let states = small_numbers_of(alloc, states)?;
    if !are_below(&states, table.len()) {
        return Err(NoMemory);
    }
    table.add_group(&states)?;
    Ok(())
}

fn are_below(numbers: &[u16], end: u16) -> bool
    ensures { IsTrue result ↔ All (λ number. number < end) numbers.now }
{
    numbers.iter().all(|number| *number < end)
}

fn letters_of(digits: &str) -> u8 {
    digits.parse::<u8>().unwrap_or(0)
}
