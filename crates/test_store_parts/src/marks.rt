//! Steps over marks and the objects that they bind.
use crate::objects::kill;
use crate::random_marks::in_order;
use jm_marks::{Marks, dead_mask};
use jm_model::{Binding, NoMemory};
use jm_objects::Objects;
use std::alloc::{AllocError, Global};
use testkit::{Case, number_of, put_line, put_word, text_of};
use testkit_steps::{binding_of, binding_shown};

/// What each step of the text's lines answers, a line for each.
pub(crate) fn marks(alloc: Global, case: &Case) -> Result<String, NoMemory> {
    let mut objects = Objects::new(alloc, number_of(case.first.as_str()))?;
    let mut marks = Marks::new(alloc);
    let mut out = String::new(alloc);
    for line in text_of(&case.text).lines() {
        let (verb, rest) = line.split_once(' ').unwrap_or((line, ""));
        act(&mut objects, &mut marks, verb, rest)?;
        let text = told(alloc, &objects, &marks, verb, rest)?;
        put_line(&mut out, text.as_str())?;
    }
    Ok(out)
}

fn act(objects: &mut Objects, marks: &mut Marks, verb: &str, rest: &str) -> Result<(), NoMemory> {
    match verb {
        "add" => add(marks, binding_of(rest))?,
        "sweep" => marks.sweep(objects),
        "kill" => {
            kill(objects, number_of(rest));
        }
        _ => {}
    }
    Ok(())
}

fn add(marks: &mut Marks, binding: Binding) -> Result<(), NoMemory> {
    marks.reserve()?;
    marks.add(binding);
    Ok(())
}

fn told(
    alloc: Global,
    objects: &Objects,
    marks: &Marks,
    verb: &str,
    rest: &str,
) -> Result<String, NoMemory> {
    match verb {
        "contains" => Ok(format!(in alloc; "{}", marks.contains(&binding_of(rest)))?),
        "covers" => Ok(format!(in alloc; "{}", covers(marks, rest))?),
        "dead_mask" => Ok(format!(in alloc; "{}", dead_mask(objects, &binding_of(rest)))?),
        "kill" => Ok(String::from_str(alloc, "killed")?),
        _ => list_shown(alloc, marks),
    }
}

fn covers(marks: &Marks, words: &str) -> bool {
    let (above, below) = words.split_once(' ').unwrap_or((words, ""));
    marks.covers(&binding_of(above), &binding_of(below))
}

fn list_shown(alloc: Global, marks: &Marks) -> Result<String, NoMemory> {
    let mut out = String::new(alloc);
    for mark in &in_order(marks.to_list()?) {
        put_word(&mut out, binding_shown(alloc, mark)?.as_str())?;
    }
    if out.is_empty() {
        out.push_str("none")?;
    }
    Ok(out)
}
