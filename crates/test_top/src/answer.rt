use crate::command;
use std::alloc::{AllocError, Global};
use std::sync::Wait;
use std::thread::Threads;
use testkit::Case;

/// What the case's verb answers.
pub(crate) fn answer<R: Threads + Wait + Sync>(
    rt: &R,
    alloc: Global,
    case: &Case,
) -> Result<String, AllocError> {
    match case.verb.as_str() {
        "run" => command::run(rt, alloc, case),
        "long" => command::long(rt, alloc, case),
        "fronts" => command::fronts(rt, alloc, case),
        "told" => command::told(alloc, case),
        "laws" => command::laws(alloc),
        _ => String::from_str(alloc, "no such verb"),
    }
}
