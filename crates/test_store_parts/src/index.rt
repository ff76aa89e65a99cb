//! Steps over an index and a table of objects.
use crate::table::Table;
use jm_model::{Binding, NoMemory};
use std::alloc::{AllocError, Global};
use testkit::{Case, number_of, put, text_of};
use testkit_steps::{binding_of, with_pair};

/// What is asked in the text's lines, a line for each.
pub(crate) fn index(alloc: Global, case: &Case) -> Result<String, NoMemory> {
    let mut table = Table::new(alloc, number_of(case.first.as_str()))?;
    let mut out = String::new(alloc);
    for line in text_of(&case.text).lines() {
        let (verb, rest) = line.split_once(' ').unwrap_or((line, ""));
        if verb == "ask" {
            let text = asked(alloc, &table, rest)?;
            put(&mut out, '\n', text.as_str())?;
        } else {
            act(&mut table, verb, rest)?;
        }
    }
    Ok(out)
}

fn act(table: &mut Table, verb: &str, rest: &str) -> Result<(), NoMemory> {
    let (first, second) = rest.split_once(' ').unwrap_or((rest, ""));
    match verb {
        "add" => table.add(binding_of(first), number_of(second) as usize)?,
        "remove" => table.remove(&binding_of(first)),
        "kill" => table.kill(number_of(first)),
        "drop" => table.drop_dead(),
        "fill" => fill(table, number_of(first), number_of(second))?,
        "clear" => clear(table, number_of(first), number_of(second)),
        "kill_from" => kill_from(table, number_of(first), number_of(second)),
        _ => {}
    }
    Ok(())
}

/// The pair of object 0 and another.
fn pair_of(object: u32) -> Binding {
    with_pair(with_pair(Binding::empty(), 0, 0), 1, object)
}

fn fill(table: &mut Table, from: u32, to: u32) -> Result<(), NoMemory> {
    for object in from..to {
        table.add(pair_of(object), object as usize)?;
    }
    Ok(())
}

fn clear(table: &mut Table, from: u32, to: u32) {
    for object in from..to {
        table.remove(&pair_of(object));
    }
}

fn kill_from(table: &mut Table, from: u32, to: u32) {
    for object in from..to {
        table.kill(object);
    }
}

fn asked(alloc: Global, table: &Table, words: &str) -> Result<String, NoMemory> {
    let (domain, binding) = words.split_once(' ').unwrap_or((words, ""));
    match table.ask(domain.parse::<u8>().unwrap_or(0), &binding_of(binding))? {
        Some(slots) => Ok(slots_shown(alloc, slots.as_slice())?),
        None => Ok(String::from_str(alloc, "dead")?),
    }
}

fn slots_shown(alloc: Global, slots: &[usize]) -> Result<String, AllocError> {
    let mut out = String::new(alloc);
    for slot in slots {
        put(&mut out, ' ', format!(in alloc; "{slot}")?.as_str())?;
    }
    if out.is_empty() {
        out.push_str("none")?;
    }
    Ok(out)
}
