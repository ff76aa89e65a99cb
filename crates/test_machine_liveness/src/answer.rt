use crate::cuts::{cuts, rests};
use crate::families::{families, states};
use crate::numbers::numbers;
use jm_machine::Rules;
use jm_model::SpecError;
use std::alloc::{AllocError, Global};
use testkit::Case;
use testkit_rules::rules_of;
use testkit_tokens::or_fault;

/// What the case's verb answers, of the specification in its text.
pub(crate) fn answer(alloc: Global, case: &Case) -> Result<String, AllocError> {
    or_fault(alloc, case_text(alloc, case))
}

fn case_text(alloc: Global, case: &Case) -> Result<String, SpecError> {
    let rules = rules_of(alloc, &case.text)?;
    Ok(rules_text(alloc, case, &rules)?)
}

fn rules_text(alloc: Global, case: &Case, rules: &Rules) -> Result<String, AllocError> {
    let mut out = String::new(alloc);
    match case.verb.as_str() {
        "cut" => cuts(alloc, &mut out, rules, &case.first, &case.second)?,
        "family" => families(alloc, &mut out, rules)?,
        "states" => states(alloc, &mut out, rules)?,
        "numbers" => numbers(alloc, &mut out, rules, &case.first)?,
        "rests" => rests(alloc, &mut out, rules, &case.first)?,
        _ => out.push_str("no such verb")?,
    }
    Ok(out)
}
