use crate::{compact, script};
use jm_model::SpecError;
use std::alloc::{AllocError, Global};
use testkit::Case;
use testkit_tokens::or_fault;

/// What the case's verb answers, or the fault that its catalog meets.
pub(crate) fn answer(alloc: Global, case: &Case) -> Result<String, AllocError> {
    or_fault(alloc, answered(alloc, case))
}

fn answered(alloc: Global, case: &Case) -> Result<String, SpecError> {
    match case.verb.as_str() {
        "catalog" => script::catalog(alloc, case),
        "script" => script::script(alloc, case),
        "ending" => script::ending(alloc, case),
        "project" => script::projected(alloc, case),
        "compact" => compact::compact(alloc, case),
        "blocks" => compact::blocks(alloc, case),
        "queue" => compact::queue(alloc, case),
        _ => laws(alloc),
    }
}

/// Names the law, which is proved.
fn laws(alloc: Global) -> Result<String, SpecError> {
    jm_script::one_reading();
    Ok(String::from_str(alloc, "one reading")?)
}
