use crate::print::print;
use crate::rules::{check, coenable};
use std::alloc::{AllocError, Global};
use testkit::Case;
use testkit_tokens::or_fault;

/// What the case's verb answers, or the fault that it meets.
pub(crate) fn answer(alloc: Global, case: &Case) -> Result<String, AllocError> {
    match case.verb.as_str() {
        "print" => or_fault(alloc, print(alloc, case)),
        "check" => or_fault(alloc, check(alloc, case)),
        "coenable" => or_fault(alloc, coenable(alloc, case)),
        _ => laws(alloc),
    }
}

/// Names the laws, of which each is proved.
fn laws(alloc: Global) -> Result<String, AllocError> {
    jm_print::text_determines_history();
    jm_print::marked_lines_can_be_dropped();
    jm_print::texts_split_in_one_way();
    String::from_str(alloc, "three laws")
}
