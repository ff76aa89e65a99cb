use jm_machine::{Configuration, Rules};
use jm_model::{Letter, Monitor, NoMemory};
use std::alloc::{AllocError, Global};

/// For the empty word and after each letter, whether each set of dead parameters cuts the instance.
pub(crate) fn cuts(
    alloc: Global,
    out: &mut String,
    rules: &Rules,
    word: &str,
    dead: &str,
) -> Result<(), AllocError> {
    let Ok(mut configuration) = rules.begin() else {
        return out.push_str("no memory");
    };
    add_cuts(out, rules, &configuration, dead)?;
    for digit in word.bytes() {
        let Ok(next) = later(rules, &configuration, digit) else {
            return out.push_str("no memory");
        };
        configuration = next;
        out.push_str(" ")?;
        add_cuts(out, rules, &configuration, dead)?;
    }
    let _ = alloc;
    Ok(())
}

/// The configuration with the letter of a digit at its end.
pub(crate) fn later(
    rules: &Rules,
    configuration: &Configuration,
    digit: u8,
) -> Result<Configuration, NoMemory> {
    let letter = digit.saturating_sub(b'0');
    if letter < rules.letters() {
        rules.next(configuration, Letter(letter))
    } else {
        rules.copy(configuration)
    }
}

fn add_cuts(
    out: &mut String,
    rules: &Rules,
    configuration: &Configuration,
    dead: &str,
) -> Result<(), AllocError> {
    for mask in dead.split_whitespace() {
        let cut = rules.cut(configuration, mask.parse().unwrap_or(255));
        out.push_str(if cut { "1" } else { "0" })?;
    }
    Ok(())
}

/// For the empty word and after each letter, the letters at which the instance rests, and those that end it.
pub(crate) fn rests(
    alloc: Global,
    out: &mut String,
    rules: &Rules,
    word: &str,
) -> Result<(), AllocError> {
    let Ok(mut configuration) = rules.begin() else {
        return out.push_str("no memory");
    };
    add_rests(alloc, out, rules, &configuration)?;
    for digit in word.bytes() {
        let Ok(next) = later(rules, &configuration, digit) else {
            return out.push_str("no memory");
        };
        configuration = next;
        out.push_str(" ")?;
        add_rests(alloc, out, rules, &configuration)?;
    }
    Ok(())
}

fn add_rests(
    alloc: Global,
    out: &mut String,
    rules: &Rules,
    configuration: &Configuration,
) -> Result<(), AllocError> {
    add_letters(alloc, out, rules, rules.idle(configuration))?;
    out.push_str("/")?;
    add_letters(alloc, out, rules, rules.ending(configuration))
}

/// The letters of a mask, as digits, or a dash where there is none.
pub(crate) fn add_letters(
    alloc: Global,
    out: &mut String,
    rules: &Rules,
    mask: u32,
) -> Result<(), AllocError> {
    let before = out.len();
    for letter in 0..rules.letters() {
        if letter < 32 && mask & (1 << letter) != 0 {
            let digit = format!(in alloc; "{letter}")?;
            out.push_str(&digit)?;
        }
    }
    if out.len() == before {
        out.push_str("-")?;
    }
    Ok(())
}
