use crate::filter::wrong;
use crate::plan::Plan;
use crate::storm::storm;
use jm_model::{Entry, NoMemory, Outcome};
use std::alloc::{AllocError, Global};
use std::sync::Wait;
use std::thread::Threads;
use testkit::{Case, numbers_of};
use testkit_monitor::Table;
use testkit_steps::or_no_memory;

/// What the storm of the case's words comes to: `storm SEATS ROUNDS STEPS OBJECTS / SEED`.
pub(crate) fn answer<R: Threads + Wait + Sync>(
    rt: &R,
    alloc: Global,
    case: &Case,
) -> Result<String, AllocError> {
    let numbers = numbers_of(alloc, case.first.as_str())?;
    let [seats, rounds, steps, objects] = numbers.as_slice() else {
        return String::from_str(alloc, "no such storm");
    };
    let seed = case.second.parse::<u32>().unwrap_or(0);
    let plan = Plan {
        seats: (*seats).clamp(1, 16),
        rounds: *rounds,
        steps: *steps,
        objects: *objects,
        seed,
    };
    or_no_memory(alloc, told(rt, alloc, plan))
}

/// How many entries there are, how many objects died, whether an event fired and one was refused, and how many entries
/// aren't what the definitions say.
fn told<R: Threads + Wait + Sync>(rt: &R, alloc: Global, plan: Plan) -> Result<String, NoMemory> {
    let prop = storm(rt, alloc, Table::doors(), plan)?;
    let entries = prop.history().to_list(alloc)?;
    let died = entries
        .iter()
        .filter(|entry| matches!(entry.outcome, Outcome::Done))
        .count();
    let fired = entries.iter().any(|entry| has_fired(entry));
    let refused = entries
        .iter()
        .any(|entry| matches!(entry.outcome, Outcome::Refused(_)));
    let wrong = wrong(alloc, &entries)?;
    let count = entries.len();
    Ok(format!(in alloc;
        "{count} entries, {died} died, fired {fired}, refused {refused}, {wrong} wrong"
    )?)
}

fn has_fired(entry: &Entry) -> bool {
    match &entry.outcome {
        Outcome::Fired(firings) => firings.len() > 0,
        _ => false,
    }
}
