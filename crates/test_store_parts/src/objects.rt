//! Steps over a table of objects.
use jm_model::NoMemory;
use jm_objects::Objects;
use std::alloc::{AllocError, Global};
use testkit::{Case, number_of, put_word, text_of};

/// What each step of the text's lines answers.
pub(crate) fn objects(alloc: Global, case: &Case) -> Result<String, NoMemory> {
    let mut objects = Objects::new(alloc, number_of(case.first.as_str()))?;
    let mut out = String::new(alloc);
    for line in text_of(&case.text).lines() {
        let word = step(alloc, &mut objects, line)?;
        put_word(&mut out, word.as_str())?;
    }
    Ok(out)
}

fn step(alloc: Global, objects: &mut Objects, line: &str) -> Result<String, AllocError> {
    let (verb, rest) = line.split_once(' ').unwrap_or((line, ""));
    match verb {
        "kill" => format!(in alloc; "{:?}", kill(objects, number_of(rest))),
        "kill_all" => format!(in alloc; "{}", kill_all(objects)),
        "is_dead" => format!(in alloc; "{:?}", is_dead(objects, number_of(rest))),
        "dead" => format!(in alloc; "{}", dead_count(objects)),
        _ => format!(in alloc; "{}", objects.len()),
    }
}

/// Whether the object was alive, if it is in the table.
pub(crate) fn kill(objects: &mut Objects, object: u32) -> Option<bool> {
    if object < objects.len() {
        Some(objects.kill(object))
    } else {
        None
    }
}

fn is_dead(objects: &Objects, object: u32) -> Option<bool> {
    if object < objects.len() {
        Some(objects.is_dead(object))
    } else {
        None
    }
}

fn dead_count(objects: &Objects) -> u32 {
    let mut count = 0u32;
    for object in 0..objects.len() {
        if is_dead(objects, object) == Some(true) {
            count = count.wrapping_add(1);
        }
    }
    count
}

/// How many were alive.
fn kill_all(objects: &mut Objects) -> u32 {
    let mut count = 0u32;
    for object in 0..objects.len() {
        if kill(objects, object) == Some(true) {
            count = count.wrapping_add(1);
        }
    }
    count
}
