use crate::{chart, grammar, suffix_ere, suffix_grammar};
use std::alloc::{AllocError, Global};
use testkit::Case;

/// The answer to a case.
pub(crate) fn answer(alloc: Global, case: &Case) -> Result<String, AllocError> {
    match case.verb.as_str() {
        "grammar" | "reduce" | "size" | "suffix" | "productive" => grammar::answer(alloc, case),
        "made" => grammar::made(alloc, case),
        "laws" => laws(alloc),
        "matches" | "futures" | "params" | "crosses" => chart::answer(alloc, case),
        "suffix_ere" => suffix_ere::answer(alloc, case),
        "suffix_grammar" => suffix_grammar::answer(alloc, case),
        _ => String::from_str(alloc, "no such verb"),
    }
}

/// The laws are proved: that they can be called is all that is to be seen.
fn laws(alloc: Global) -> Result<String, AllocError> {
    jm_grammar::one_reading();
    jm_grammar::productions_as_written();
    jm_grammar::letters_are_events();
    jm_grammar::nonterminals_are_few();
    String::from_str(alloc, "called")
}
