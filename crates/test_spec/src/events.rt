//! Tables of names, and of parameters and events.
ghost use Rattle.std.specs.Prelude.{◌<◌};

use jm_events::{EventTable, Names};
use jm_model::SpecError;
use std::alloc::{AllocError, Global};
use testkit::{Case, number_of, put_word, text_of};
use testkit_tokens::{put_events, put_params};

/// What the steps of a case are answered, over names of which none is there at first.
pub(crate) fn names(alloc: Global, case: &Case) -> Result<String, SpecError> {
    let mut names = Names::new(alloc);
    let mut out = String::new(alloc);
    for step in text_of(&case.text).lines() {
        let answer = names_step(alloc, &mut names, step)?;
        put_word(&mut out, answer.as_str())?;
    }
    Ok(out)
}

fn names_step(alloc: Global, names: &mut Names, step: &str) -> Result<String, SpecError> {
    let (verb, name) = step.split_once(' ').unwrap_or((step, ""));
    match verb {
        "add" if names.len() < 1000 => {
            let number = names.add(name)?;
            Ok(format!(in alloc; "{number}")?)
        }
        "find" => Ok(format!(in alloc; "{:?}", names.find(name))?),
        "name" => Ok(String::from_str(alloc, name_at(names, name))?),
        _ => Ok(format!(in alloc; "{}", names.len())?),
    }
}

/// The name of a number.
fn name_at<'a>(names: &'a Names, number: &str) -> &'a str {
    let number = number_of(number);
    if number < names.len() {
        names.name(number)
    } else {
        "no such number"
    }
}

/// What the steps of a case are answered, over a table that is empty at first, and on a line what a copy of the table
/// tells then.
/// The line of a mention is that of its step.
pub(crate) fn events(alloc: Global, case: &Case) -> Result<String, SpecError> {
    let mut table = EventTable::new(alloc);
    let mut out = filled(alloc, &mut table, text_of(&case.text))?;
    let copy = table.copy()?;
    put_table(alloc, &mut out, &copy, case.first.as_str())?;
    Ok(out)
}

/// What the steps are answered.
fn filled(alloc: Global, table: &mut EventTable, steps: &str) -> Result<String, AllocError> {
    let mut out = String::new(alloc);
    let mut line = 0u32;
    for step in steps.lines() {
        line = line.wrapping_add(1);
        let answer = events_step(alloc, table, step, line)?;
        put_word(&mut out, answer.as_str())?;
    }
    Ok(out)
}

/// A step: `param NAME`, or `event NAME MASK` or `creation NAME MASK`.
fn events_step(
    alloc: Global,
    table: &mut EventTable,
    step: &str,
    line: u32,
) -> Result<String, AllocError> {
    let (verb, rest) = step.split_once(' ').unwrap_or((step, ""));
    if verb == "param" {
        return shown(alloc, table.add_param(rest, line));
    }
    let (name, mask) = rest.split_once(' ').unwrap_or((rest, "0"));
    let mask = u8::try_from(number_of(mask)).unwrap_or(0);
    shown(alloc, mention(table, name, mask, verb == "creation", line))
}

/// The number of an event's letter, where its parameters are there.
fn mention(
    table: &mut EventTable,
    name: &str,
    mask: u8,
    creation: bool,
    line: u32,
) -> Result<u8, SpecError> {
    if u32::from(mask) >= 1u32 << table.params() {
        return Err(SpecError::NoMemory);
    }
    let letter = table.add_event(name, mask, creation, line)?;
    Ok(letter.0)
}

/// A number or a fault.
fn shown(alloc: Global, number: Result<u8, SpecError>) -> Result<String, AllocError> {
    match number {
        Ok(number) => format!(in alloc; "{number}"),
        Err(fault) => format!(in alloc; "{fault:?}"),
    }
}

/// Appends a line with the parameters and the events of a table, and the numbers of the names that are asked for.
fn put_table(
    alloc: Global,
    out: &mut String,
    table: &EventTable,
    asked: &str,
) -> Result<(), AllocError> {
    out.push('\n')?;
    put_params(out, table)?;
    put_events(alloc, out, table)?;
    for name in asked.split_whitespace() {
        let param = table.param(name);
        let letter = table.letter(name).map(|letter| letter.0);
        let found = format!(in alloc; "{name}={param:?}/{letter:?}")?;
        put_word(out, found.as_str())?;
    }
    Ok(())
}
