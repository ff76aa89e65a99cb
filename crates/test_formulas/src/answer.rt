use crate::{ere, fsm, needs, ptltl};
use std::alloc::{AllocError, Global};
use testkit::Case;

/// The answer to a case.
pub(crate) fn answer(alloc: Global, case: &Case) -> Result<String, AllocError> {
    match case.verb.as_str() {
        "fsm" | "fsm_categories" => fsm::answer(alloc, case),
        "ptltl" | "ptltl_categories" => ptltl::answer(alloc, case),
        "ere" | "ere_read" | "ere_categories" => ere::answer(alloc, case),
        "ere_same" => ere::same(alloc, case),
        "needs" | "resetting" => needed(alloc, case),
        "laws" => laws(alloc),
        _ => String::from_str(alloc, "no such verb"),
    }
}

fn needed(alloc: Global, case: &Case) -> Result<String, AllocError> {
    match needs::needs(alloc, case) {
        Ok(text) => Ok(text),
        Err(fault) => format!(in alloc; "{fault:?}"),
    }
}

/// The laws are proved: that they can be called is all that is to be seen.
fn laws(alloc: Global) -> Result<String, AllocError> {
    jm_fsm::one_reading();
    jm_fsm::states_as_written();
    jm_fsm::aliases_as_written();
    jm_ptltl::one_reading();
    jm_ere::one_reading();
    jm_ere::one_order();
    jm_ere::forms_are_normal();
    String::from_str(alloc, "called")
}
