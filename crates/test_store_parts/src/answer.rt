use crate::awake::awake;
use crate::index::index;
use crate::random_index::random_index;
use crate::{bindings, entries, marks, objects, random_marks};
use jm_model::NoMemory;
use std::alloc::{AllocError, Global};
use testkit::Case;
use testkit_steps::or_no_memory;

/// What the case's verb answers.
pub(crate) fn answer(alloc: Global, case: &Case) -> Result<String, AllocError> {
    or_no_memory(alloc, answered(alloc, case))
}

fn answered(alloc: Global, case: &Case) -> Result<String, NoMemory> {
    match case.verb.as_str() {
        "binding" => bindings::binding(alloc, case),
        "outcomes" => entries::outcomes(alloc, case),
        "entries" => entries::entries(alloc, case),
        "history" => entries::history(alloc, case),
        "long" => entries::long(alloc, case),
        "objects" => objects::objects(alloc, case),
        "marks" => marks::marks(alloc, case),
        "random_marks" => random_marks::random_marks(alloc, case),
        "index" => index(alloc, case),
        "random_index" => random_index(alloc, case),
        "awake" => awake(alloc, case),
        _ => Ok(String::from_str(alloc, "no such verb")?),
    }
}
