//! Tables of circles. A case has the last number of its circle, and after it, if one is there, the number from which
//! no letter leads on; then how many letters there are.

ghost use Rattle.std.specs.Prelude.{ℕ, ◌≡◌, ◌<◌, ◌≤◌, ◌+◌, ◌↔◌, [], All, IsTrue, IfOk, OnOk, length};

use crate::circle::Circle;
use jm_model::{Letter, SpecError};
use jm_table::{Table, build};
use std::alloc::{AllocError, Global};
use testkit::{Case, put_number, small_number_of, small_numbers_of, text_of};
use testkit_tokens::or_fault;

const NOWHERE: u32 = 100_000;

/// How many states, nodes and letters there are, and whether node k is k; or the fault.
pub(crate) fn circle(alloc: Global, case: &Case) -> Result<String, AllocError> {
    or_fault(alloc, circle_text(alloc, case))
}

fn circle_text(alloc: Global, case: &Case) -> Result<String, SpecError> {
    let (table, nodes) = build_circle(alloc, case)?;
    Ok(counts_text(alloc, &table, &nodes)?)
}

fn counts_text(alloc: Global, table: &Table, nodes: &[u32]) -> Result<String, AllocError> {
    let order = if is_in_order(nodes) {
        "in order"
    } else {
        "in disorder"
    };
    format!(in alloc;
        "{} {} {} {order}",
        table.len(),
        nodes.len(),
        table.letters()
    )
}

fn is_in_order(nodes: &[u32]) -> bool {
    nodes
        .iter()
        .enumerate()
        .all(|(place, node)| place == *node as usize)
}

/// Where a letter leads from a state: the text has the numbers of the state and of the letter.
pub(crate) fn next(alloc: Global, case: &Case) -> Result<String, AllocError> {
    or_fault(alloc, next_text(alloc, case))
}

fn next_text(alloc: Global, case: &Case) -> Result<String, SpecError> {
    let (table, _nodes) = build_circle(alloc, case)?;
    let (state, letter) = text_of(&case.text).split_once(' ').unwrap_or(("", ""));
    let next = next_of(&table, small_number_of(state), small_number_of(letter));
    Ok(format!(in alloc; "{next}")?)
}

fn next_of(table: &Table, state: u16, letter: u16) -> u16 {
    if state < table.len() && letter < u16::from(table.letters()) {
        table.next(state, Letter(letter as u8))
    } else {
        u16::MAX
    }
}

/// The state after the word of the text.
pub(crate) fn word(alloc: Global, case: &Case) -> Result<String, AllocError> {
    or_fault(alloc, word_text(alloc, case))
}

fn word_text(alloc: Global, case: &Case) -> Result<String, SpecError> {
    let (table, _nodes) = build_circle(alloc, case)?;
    Ok(after_text(alloc, &table, text_of(&case.text))?)
}

/// The start, and the state after a word.
fn after_text(alloc: Global, table: &Table, word: &str) -> Result<String, AllocError> {
    let word = letters_of(alloc, word)?;
    if !are_letters(&word, table.letters()) {
        return String::from_str(alloc, "no such letter");
    }
    let after = table.state_after(&word);
    format!(in alloc; "{} {after}", table.start())
}

fn letters_of(alloc: Global, word: &str) -> Result<Vec<Letter>, AllocError> {
    let mut letters = Vec::new(alloc);
    for digit in word.bytes() {
        letters.push(Letter(digit.saturating_sub(b'0')))?;
    }
    Ok(letters)
}

fn are_letters(word: &[Letter], letters: u8) -> bool
    ensures { IsTrue result ↔ All (λ letter. letter.0 < letters) word.now }
{
    word.iter().all(|letter| letter.0 < letters)
}

/// The numbers of two groups, whose states the lines of the text are, and which states are in them.
pub(crate) fn groups(alloc: Global, case: &Case) -> Result<String, AllocError> {
    or_fault(alloc, groups_text(alloc, case))
}

fn groups_text(alloc: Global, case: &Case) -> Result<String, SpecError> {
    let (mut table, _nodes) = build_circle(alloc, case)?;
    let (first, second) = text_of(&case.text).split_once('\n').unwrap_or(("", ""));
    let first = add_group(alloc, &mut table, first)?;
    let second = add_group(alloc, &mut table, second)?;
    Ok(members_text(alloc, &table, first, second)?)
}

/// Adds the group of these states.
fn add_group(alloc: Global, table: &mut Table, states: &str) -> Result<u16, SpecError>
    requires { length table.old.groups < 65535 }
    ensures number { IfOk result (λ group. group < length table.new.groups) }
    ensures one { OnOk result (length table.new.groups ≡ length table.old.groups + 1) }
{
    let states = small_numbers_of(alloc, states)?;
    if !are_states(&states, table.len()) {
        return Err(SpecError::NoMemory);
    }
    Ok(table.add_group(&states)?)
}

fn are_states(numbers: &[u16], states: u16) -> bool
    ensures { IsTrue result ↔ All (λ state. state < states) numbers.now }
{
    numbers.iter().all(|state| *state < states)
}

fn members_text(alloc: Global, table: &Table, first: u16, second: u16) -> Result<String, AllocError>
    requires first { first < length table.now.groups }
    requires second { second < length table.now.groups }
{
    let mut out = String::new(alloc);
    add_members(&mut out, alloc, table, first)?;
    out.push('\n')?;
    add_members(&mut out, alloc, table, second)?;
    Ok(out)
}

fn add_members(out: &mut String, alloc: Global, table: &Table, group: u16) -> Result<(), AllocError>
    requires { group < length table.now.groups }
{
    put_number(out, alloc, "", group)?;
    out.push(':')?;
    for state in 0..table.len() {
        if table.in_group(state, group) {
            put_number(out, alloc, " ", state)?;
        }
    }
    Ok(())
}

fn build_circle(alloc: Global, case: &Case) -> Result<(Table, Vec<u32>), SpecError>
    ensures { IfOk result (λ r. r.0.groups ≡ []) }
{
    let numbers = case.first.as_str();
    let (last, fault_at) = numbers.split_once(' ').unwrap_or((numbers, ""));
    let circle = Circle {
        last: last.parse::<u32>().unwrap_or(NOWHERE),
        fault_at: fault_at.parse::<u32>().unwrap_or(NOWHERE),
    };
    let letters = case.second.parse::<u8>().unwrap_or(0);
    build(alloc, &circle, letters.min(32))
}
