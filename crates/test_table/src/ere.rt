//! Tables of regular expressions.

use crate::shown::counts_text;
use jm_ere::read;
use jm_events::EventTable;
use jm_model::SpecError;
use jm_text::tokens;
use std::alloc::{AllocError, Global};
use testkit::Case;
use testkit_tokens::or_fault;

/// How many states the table of the text's expression and its minimal table have. A case has the events.
pub(crate) fn answer(alloc: Global, case: &Case) -> Result<String, AllocError> {
    or_fault(alloc, case_text(alloc, case))
}

fn case_text(alloc: Global, case: &Case) -> Result<String, SpecError> {
    let mut events = EventTable::new(alloc);
    for name in case.first.split_whitespace() {
        events.add_event(name, 0, false, 1)?;
    }
    expression_text(alloc, &events, &case.text)
}

fn expression_text(
    alloc: Global,
    events: &EventTable,
    formula: &[u8],
) -> Result<String, SpecError> {
    if formula.len() > 1_000_000 {
        return Err(SpecError::NoMemory);
    }
    let all = tokens(alloc, formula)?;
    let ere = read(alloc, formula, &all, 50, events)?;
    counts_text(alloc, ere.compile(alloc, events)?)
}
