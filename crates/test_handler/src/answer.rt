use crate::handler::{count, print};
use jm_model::SpecError;
use std::alloc::{AllocError, Global};
use testkit::Case;

/// What the case's verb answers.
pub(crate) fn answer(alloc: Global, case: &Case) -> Result<String, AllocError> {
    match answered(alloc, case) {
        Ok(text) => Ok(text),
        Err(SpecError::NoMemory) => String::from_str(alloc, "out of memory"),
        Err(SpecError::Bad(fault)) => format!(in alloc; "{fault:?}"),
    }
}

fn answered(alloc: Global, case: &Case) -> Result<String, SpecError> {
    match case.verb.as_str() {
        "print" => print(alloc, case),
        "count" => count(alloc, case),
        _ => Ok(String::from_str(alloc, "no such verb")?),
    }
}
