use crate::{goals, rules};
use std::alloc::{AllocError, Global};
use testkit::Case;

/// The answer to a case.
pub(crate) fn answer(alloc: Global, case: &Case) -> Result<String, AllocError> {
    match case.verb.as_str() {
        "goal" => goals::goal(alloc, case),
        "rules" => rules::answer(alloc, case),
        "laws" => laws(alloc),
        _ => String::from_str(alloc, "no such verb"),
    }
}

/// The laws are proved: that they can be called is all that is to be seen.
fn laws(alloc: Global) -> Result<String, AllocError> {
    jm_machine::one_reading();
    jm_machine::one_letter_more();
    jm_machine::without_resets();
    String::from_str(alloc, "called")
}
