use crate::{ere, made, table};
use std::alloc::{AllocError, Global};
use testkit::Case;

/// The answer to a case.
pub(crate) fn answer(alloc: Global, case: &Case) -> Result<String, AllocError> {
    match case.verb.as_str() {
        "circle" => table::circle(alloc, case),
        "next" => table::next(alloc, case),
        "word" => table::word(alloc, case),
        "groups" => table::groups(alloc, case),
        "table" => made::table(alloc, case),
        "chain" => made::chain(alloc, case),
        "minimal_circle" => made::circle(alloc, case),
        "ere" => ere::answer(alloc, case),
        _ => String::from_str(alloc, "no such verb"),
    }
}
