use crate::{host, port};
use std::alloc::{AllocError, Global};
use testkit::Case;

/// What the case's verb answers.
pub(crate) fn answer(rt: HostRuntime, alloc: Global, case: &Case) -> Result<String, AllocError> {
    match case.verb.as_str() {
        "memory-folder" => port::memory_folder(alloc, case),
        "sure-folder" => port::sure_folder(alloc, case),
        "memory-sink" => port::memory_sink(alloc, case),
        "sure-sink" => port::sure_sink(alloc, case),
        verb => host::answer(rt, alloc, case, verb),
    }
}
