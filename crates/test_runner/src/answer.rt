use crate::both::both;
use crate::command::{counted, met};
use crate::noted::noted;
use std::alloc::{AllocError, Global};
use std::sync::Wait;
use std::thread::Threads;
use testkit::Case;
use testkit_steps::or_no_memory;

/// What the case's verb answers.
pub(crate) fn answer<R: Threads + Wait + Sync>(
    rt: &R,
    alloc: Global,
    case: &Case,
) -> Result<String, AllocError> {
    match case.verb.as_str() {
        "met" => met(rt, alloc, case),
        "counted" => counted(rt, alloc, case),
        "both" => or_no_memory(alloc, both(rt, alloc, case)),
        "noted" => or_no_memory(alloc, noted(rt, alloc, case)),
        _ => String::from_str(alloc, "no such verb"),
    }
}
