//! What specifications declare, and their coenable sets.
ghost use Rattle.std.specs.Prelude.{◌<◌, ◌^◌, IsTrue, length};

use crate::print::names;
use jm_events::EventTable;
use jm_model::{NoMemory, SpecError};
use jm_print::{render_check, render_coenable};
use jm_spec::Logic;
use std::alloc::{AllocError, Global};
use testkit::{Case, byte_of, text_of};

/// What a specification declares. The words are its name, its logics with commas between and maybe `full-binding` and
/// `suffix`; after the `/` stand the names of its handlers. The first line has the parameters, and each other line an
/// event: its name, its mask and maybe `creation`.
pub(crate) fn check(alloc: Global, case: &Case) -> Result<String, SpecError> {
    let table = table_of(alloc, text_of(case.text.as_slice()))?;
    let (name, rest) = halves(case.first.as_str());
    let (words, modifiers) = halves(rest);
    let logics = logics_of(alloc, words)?;
    let categories = names(alloc, case.second.as_str())?;
    let full = has_word(modifiers, "full-binding");
    let suffix = has_word(modifiers, "suffix");
    let page = render_check(
        alloc,
        name,
        logics.as_slice(),
        full,
        suffix,
        &table,
        &categories,
    )?;
    Ok(without_last_line_feed(alloc, page.as_slice())?)
}

/// The coenable sets of a specification of this name. The lines are as in `check`, and after a `:` stand the masks of
/// the event's family.
pub(crate) fn coenable(alloc: Global, case: &Case) -> Result<String, SpecError> {
    let text = text_of(case.text.as_slice());
    let table = table_of(alloc, text)?;
    let families = families_of(alloc, text)?;
    if families.len() != table.letters() as usize {
        return Err(SpecError::NoMemory);
    }
    let page = render_coenable(alloc, case.first.as_str(), &table, families.as_slice())?;
    Ok(without_last_line_feed(alloc, page.as_slice())?)
}

fn has_word(text: &str, wanted: &str) -> bool {
    text.split_whitespace().any(|word| word == wanted)
}

/// A word, and what stands after it.
fn halves(text: &str) -> (&str, &str) {
    text.split_once(' ').unwrap_or((text, ""))
}

fn logics_of(alloc: Global, words: &str) -> Result<Vec<Logic>, NoMemory> {
    let mut logics = Vec::new(alloc);
    for word in words.split(',') {
        logics.push(logic_of(word))?;
    }
    Ok(logics)
}

fn logic_of(word: &str) -> Logic {
    match word {
        "fsm" => Logic::Fsm,
        "ere" => Logic::Ere,
        "cfg" => Logic::Cfg,
        _ => Logic::Ptltl,
    }
}

fn table_of(alloc: Global, text: &str) -> Result<EventTable, SpecError> {
    let (parameters, events) = text.split_once('\n').unwrap_or((text, ""));
    let mut table = EventTable::new(alloc);
    for name in parameters.split_whitespace() {
        table.add_param(name, 1)?;
    }
    for line in events.lines() {
        add_event(&mut table, line)?;
    }
    Ok(table)
}

fn add_event(table: &mut EventTable, line: &str) -> Result<(), SpecError> {
    let (event, _) = line.split_once(" :").unwrap_or((line, ""));
    let (name, rest) = halves(event);
    let (mask, creation) = halves(rest);
    let mask = byte_of(mask);
    if has_params(table, mask) {
        table.add_event(name, mask, creation == "creation", 2)?;
    }
    Ok(())
}

/// Whether the table has the parameters of a mask.
fn has_params(table: &EventTable, mask: u8) -> bool
    ensures { IsTrue result → mask < 2 ^ length table.now.parameters }
{
    match table.params() {
        0 => mask < 1,
        1 => mask < 2,
        2 => mask < 4,
        3 => mask < 8,
        _ => false,
    }
}

fn families_of(alloc: Global, text: &str) -> Result<Vec<Vec<u8>>, NoMemory> {
    let (_, events) = text.split_once('\n').unwrap_or((text, ""));
    let mut families = Vec::new(alloc);
    for line in events.lines() {
        let (_, masks) = line.split_once(" :").unwrap_or((line, ""));
        families.push(family_of(alloc, masks)?)?;
    }
    Ok(families)
}

fn family_of(alloc: Global, masks: &str) -> Result<Vec<u8>, NoMemory> {
    let mut family = Vec::new(alloc);
    for mask in masks.split_whitespace() {
        family.push(byte_of(mask))?;
    }
    Ok(family)
}

fn without_last_line_feed(alloc: Global, page: &[u8]) -> Result<String, AllocError> {
    let text = text_of(page);
    String::from_str(alloc, text.strip_suffix('\n').unwrap_or(text))
}
