use crate::cuts::{add_letters, later};
use jm_machine::{Configuration, Rules};
use jm_model::{AT_REST, Letter, Monitor, NO_NUMBER};
use std::alloc::{AllocError, Global};

/// After each letter the number of the configuration with what is told by it; then that of the last one made 0's.
pub(crate) fn numbers(
    alloc: Global,
    out: &mut String,
    rules: &Rules,
    word: &str,
) -> Result<(), AllocError> {
    let Ok(mut configuration) = rules.begin() else {
        return out.push_str("no memory");
    };
    add_number(alloc, out, rules, &configuration)?;
    for digit in word.bytes() {
        let Ok(next) = later(rules, &configuration, digit) else {
            return out.push_str("no memory");
        };
        configuration = next;
        out.push_str(" ")?;
        add_number(alloc, out, rules, &configuration)?;
    }
    rules.renumber(&mut configuration, 0);
    out.push_str(" ")?;
    add_number(alloc, out, rules, &configuration)
}

/// The number, where each letter leads from it, and the letters that end an instance; or that there is no number.
fn add_number(
    alloc: Global,
    out: &mut String,
    rules: &Rules,
    configuration: &Configuration,
) -> Result<(), AllocError> {
    let Some(number) = rules.number(configuration) else {
        return out.push_str("none");
    };
    let shown = format!(in alloc; "{number}")?;
    out.push_str(&shown)?;
    for letter in 0..rules.letters() {
        out.push_str(",")?;
        let row = rules.plain(Letter(letter));
        add_entry(alloc, out, row.get(usize::from(number)))?;
    }
    out.push_str("/")?;
    match rules.endings().get(usize::from(number)) {
        Some(mask) => add_letters(alloc, out, rules, *mask),
        None => out.push_str("none"),
    }
}

/// What a row has for a number: another number, `=` where the letter leaves the state as it is, or `-`.
fn add_entry(alloc: Global, out: &mut String, entry: Option<&u16>) -> Result<(), AllocError> {
    match entry {
        None => out.push_str("none"),
        Some(&NO_NUMBER) => out.push_str("-"),
        Some(&AT_REST) => out.push_str("="),
        Some(number) => {
            let shown = format!(in alloc; "{number}")?;
            out.push_str(&shown)
        }
    }
}
