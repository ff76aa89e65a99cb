use crate::rig::by_two;
use jm_model::{NoMemory, SpecError};
use std::alloc::{AllocError, Global};
use std::sync::Wait;
use testkit::{Case, number_of};
use testkit_monitor::Table;
use testkit_rules::rules_of;
use testkit_steps::or_no_memory;

/// What the case's verb answers.
pub(crate) fn answer(rt: &impl Wait, alloc: Global, case: &Case) -> Result<String, AllocError> {
    let told = match case.verb.as_str() {
        "table" => stingy(rt, alloc, case),
        _ => ruled(rt, alloc, case),
    };
    or_no_memory(alloc, told)
}

/// The steps of the case's words over a table whose call of `next` with this number is refused memory.
fn stingy(rt: &impl Wait, alloc: Global, case: &Case) -> Result<String, NoMemory> {
    let left = number_of(case.second.as_str());
    by_two(rt, alloc, case.first.as_str(), Table::unsafe_iter(left), 8)
}

/// The steps of the case's words over the rules of the specification in its text.
fn ruled(rt: &impl Wait, alloc: Global, case: &Case) -> Result<String, NoMemory> {
    let objects = number_of(case.second.as_str());
    match rules_of(alloc, &case.text) {
        Ok(rules) => by_two(rt, alloc, case.first.as_str(), rules, objects),
        Err(SpecError::NoMemory) => Err(NoMemory),
        Err(SpecError::Bad(fault)) => Ok(format!(in alloc; "{fault:?}")?),
    }
}
