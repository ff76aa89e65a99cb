use crate::{events, spec, text};
use jm_model::SpecError;
use std::alloc::{AllocError, Global};
use testkit::Case;
use testkit_tokens::or_fault;

/// What the case's verb answers, or the fault that it meets.
pub(crate) fn answer(alloc: Global, case: &Case) -> Result<String, AllocError> {
    or_fault(alloc, answered(alloc, case))
}

fn answered(alloc: Global, case: &Case) -> Result<String, SpecError> {
    match case.verb.as_str() {
        "tokens" => text::tokens_shown(alloc, case),
        "tells" => text::tells(alloc, case),
        "cursor" => text::cursor(alloc, case),
        "items" => text::items(alloc, case),
        "names" => events::names(alloc, case),
        "events" => events::events(alloc, case),
        "spec" => spec::spec(alloc, case),
        "prefixes" => spec::prefixes(alloc, case),
        "laws" => spec::laws(alloc),
        _ => Ok(String::from_str(alloc, "no such verb")?),
    }
}
