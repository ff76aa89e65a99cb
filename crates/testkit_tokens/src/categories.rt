ghost use Rattle.std.specs.Prelude.{◌<◌, ◌≤◌, length};

use jm_events::Names;
use jm_model::Letter;
use jm_table::Table;
use std::alloc::{AllocError, Global};

/// The names with a space between any two.
pub fn names_text(alloc: Global, names: &Names) -> Result<String, AllocError> {
    let mut out = String::new(alloc);
    let mut separator = "";
    for number in 0..names.len() {
        out.push_str(separator)?;
        out.push_str(names.name(number))?;
        separator = " ";
    }
    Ok(out)
}

/// Each word with the categories that hold of it.
pub fn words_text(
    alloc: Global,
    names: &Names,
    table: &Table,
    words: &str,
) -> Result<String, AllocError>
    requires { length names.now ≤ length table.now.groups }
{
    let mut out = String::new(alloc);
    add_words(&mut out, names, table, words)?;
    Ok(out)
}

/// How many states there are, and each word with the categories that hold of it.
pub fn states_text(
    alloc: Global,
    names: &Names,
    table: &Table,
    words: &str,
) -> Result<String, AllocError>
    requires { length names.now ≤ length table.now.groups }
{
    let mut out = format!(in alloc; "{}", table.len())?;
    add_words(&mut out, names, table, words)?;
    Ok(out)
}

/// Adds each word with the categories that hold of it. A word is of digits, which are its letters.
fn add_words(out: &mut String, names: &Names, table: &Table, words: &str) -> Result<(), AllocError>
    requires { length names.now ≤ length table.now.groups }
{
    for word in words.split_whitespace() {
        if !out.is_empty() {
            out.push(' ')?;
        }
        out.push_str(word)?;
        add_categories(out, names, table, state_after(table, word))?;
    }
    Ok(())
}

fn add_categories(
    out: &mut String,
    names: &Names,
    table: &Table,
    state: u16,
) -> Result<(), AllocError>
    requires { length names.now ≤ length table.now.groups }
{
    let mut separator = ':';
    for number in 0..names.len() {
        if is_in(table, state, number) {
            out.push(separator)?;
            out.push_str(names.name(number))?;
            separator = ',';
        }
    }
    Ok(())
}

/// Whether a state is in the group of a category.
pub fn is_in(table: &Table, state: u16, category: u32) -> bool
    requires { category < length table.now.groups }
{
    state < table.len() && table.in_group(state, category as u16)
}

/// The state after the letters of a word that there are.
fn state_after(table: &Table, word: &str) -> u16 {
    let mut state = table.start();
    for digit in word.bytes() {
        state = next(table, state, digit.saturating_sub(b'0'));
    }
    state
}

/// Where a letter leads, or the state itself where the letter isn't there.
pub fn next(table: &Table, state: u16, letter: u8) -> u16 {
    if state < table.len() && letter < table.letters() {
        table.next(state, Letter(letter))
    } else {
        state
    }
}
