use crate::bindings::{binding_of, binding_shown};
use crate::steps::step_shown;
use jm_model::{Entry, Firing, Firings, NoMemory, Outcome};
use std::alloc::{AllocError, Global};
use testkit::{byte_of, number_of, put};

/// The outcome of a text: `fired:HANDLER@BINDING;..`, `refused:OBJECT`, `done`, `kept:COUNT`, or another where it is
/// out of memory.
pub fn outcome_of(alloc: Global, text: &str) -> Result<Outcome, NoMemory> {
    let (kind, rest) = text.split_once(':').unwrap_or((text, ""));
    match kind {
        "fired" => Ok(Outcome::Fired(firings_of(alloc, rest)?)),
        "refused" => Ok(Outcome::Refused(number_of(rest))),
        "done" => Ok(Outcome::Done),
        "kept" => Ok(Outcome::Kept(rest.parse::<u64>().unwrap_or(0))),
        _ => Ok(Outcome::NoMemory),
    }
}

fn firings_of(alloc: Global, text: &str) -> Result<Firings, NoMemory> {
    let mut firings = Firings::new(alloc);
    for firing in text.split(';') {
        if let Some((handler, instance)) = firing.split_once('@') {
            firings.push(Firing {
                instance: binding_of(instance),
                handler: byte_of(handler),
            })?;
        }
    }
    Ok(firings)
}

/// The text of an outcome.
pub fn outcome_shown(alloc: Global, outcome: &Outcome) -> Result<String, AllocError> {
    match outcome {
        Outcome::Fired(firings) => {
            let firings = firings_shown(alloc, firings)?;
            format!(in alloc; "fired:{firings}")
        }
        Outcome::Refused(object) => format!(in alloc; "refused:{object}"),
        Outcome::Done => String::from_str(alloc, "done"),
        Outcome::Kept(count) => format!(in alloc; "kept:{count}"),
        Outcome::NoMemory => String::from_str(alloc, "no-memory"),
    }
}

fn firings_shown(alloc: Global, firings: &Firings) -> Result<String, AllocError> {
    let mut out = String::new(alloc);
    for i in 0..firings.len() {
        let firing = firings.get(i);
        let instance = binding_shown(alloc, &firing.instance)?;
        let one = format!(in alloc; "{}@{instance}", firing.handler)?;
        put(&mut out, ';', one.as_str())?;
    }
    Ok(out)
}

/// The caller, the line, the step and the outcome of an entry.
pub fn entry_shown(alloc: Global, entry: &Entry) -> Result<String, AllocError> {
    let step = step_shown(alloc, &entry.step)?;
    let outcome = outcome_shown(alloc, &entry.outcome)?;
    format!(in alloc; "{} {} {step} {outcome}", entry.caller, entry.line)
}

/// The text, or that memory is refused.
pub fn or_no_memory(alloc: Global, shown: Result<String, NoMemory>) -> Result<String, AllocError> {
    match shown {
        Ok(text) => Ok(text),
        Err(NoMemory) => String::from_str(alloc, "out of memory"),
    }
}
