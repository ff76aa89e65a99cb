//! The rules of whole specifications.
use jm_machine::{Configuration, Rules};
use jm_model::{Letter, Monitor, SpecError};
use std::alloc::{AllocError, Global};
use std::mem::size_of;
use testkit::Case;
use testkit_rules::rules_of;
use testkit_tokens::or_fault;

// A state of the rules takes 16 bytes.
const _: () = prove!(size_of::<Configuration>() == 16);

/// What the specification of a case says, or its fault: what has to be bound, the parameters of each event, the names
/// of the handlers, and the hits of the empty word and after each letter of the case's word, whose digits are letters.
pub(crate) fn answer(alloc: Global, case: &Case) -> Result<String, AllocError> {
    or_fault(alloc, case_text(alloc, case))
}

fn case_text(alloc: Global, case: &Case) -> Result<String, SpecError> {
    let rules = rules_of(alloc, &case.text)?;
    rules_text(alloc, &rules, &case.first)
}

fn rules_text(alloc: Global, rules: &Rules, word: &str) -> Result<String, SpecError> {
    let mut out = format!(in alloc; "{}", rules.must_bind())?;
    add_masks(alloc, &mut out, rules)?;
    add_handlers(&mut out, rules)?;
    out.push_str(" :")?;
    add_hits(alloc, &mut out, rules, word)?;
    Ok(out)
}

fn add_masks(alloc: Global, out: &mut String, rules: &Rules) -> Result<(), AllocError> {
    for letter in 0..rules.letters() {
        let mask = format!(in alloc; " {}", rules.params(Letter(letter)))?;
        out.push_str(&mask)?;
    }
    Ok(())
}

fn add_handlers(out: &mut String, rules: &Rules) -> Result<(), AllocError> {
    for handler in 0..17 {
        if u32::from(handler) < rules.handlers().len() {
            out.push_str(" @")?;
            out.push_str(rules.handler_name(handler))?;
        }
    }
    Ok(())
}

fn add_hits(alloc: Global, out: &mut String, rules: &Rules, word: &str) -> Result<(), SpecError> {
    let mut run = rules.begin()?;
    add_hit(alloc, out, rules.hits(&run))?;
    for digit in word.bytes() {
        let letter = digit.saturating_sub(b'0');
        if letter < rules.letters() {
            run = rules.next(&run, Letter(letter))?;
        }
        run = rules.copy(&run)?;
        add_hit(alloc, out, rules.hits(&run))?;
    }
    Ok(())
}

fn add_hit(alloc: Global, out: &mut String, hits: u16) -> Result<(), AllocError> {
    let hits = format!(in alloc; " {hits}")?;
    out.push_str(&hits)
}
