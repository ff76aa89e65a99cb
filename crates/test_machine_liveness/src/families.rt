ghost use Rattle.std.specs.Prelude.{◌<◌, length};

use jm_machine::Rules;
use jm_model::{Letter, Monitor};
use std::alloc::{AllocError, Global};

/// The coenable family of each letter, or that there is none.
pub(crate) fn families(alloc: Global, out: &mut String, rules: &Rules) -> Result<(), AllocError> {
    for letter in 0..rules.letters() {
        if letter != 0 {
            out.push_str(" ")?;
        }
        match rules.family(Letter(letter)) {
            Ok(Some(masks)) => add_masks(alloc, out, masks.as_slice())?,
            Ok(None) => out.push_str("none")?,
            Err(_) => out.push_str("no memory")?,
        }
    }
    Ok(())
}

fn add_masks(alloc: Global, out: &mut String, masks: &[u8]) -> Result<(), AllocError> {
    out.push_str("[")?;
    for (place, mask) in masks.iter().enumerate() {
        let gap = if place == 0 { "" } else { " " };
        let shown = format!(in alloc; "{gap}{mask}")?;
        out.push_str(&shown)?;
    }
    out.push_str("]")
}

/// How many states the table of each property has, or that there is none.
pub(crate) fn states(alloc: Global, out: &mut String, rules: &Rules) -> Result<(), AllocError> {
    for property in 0..rules.properties() {
        if property != 0 {
            out.push_str(" ")?;
        }
        add_states(alloc, out, rules, property)?;
    }
    Ok(())
}

fn add_states(
    alloc: Global,
    out: &mut String,
    rules: &Rules,
    property: u8,
) -> Result<(), AllocError>
    requires { property < length rules.now.definition.properties }
{
    match rules.table(property) {
        Some(table) => {
            let shown = format!(in alloc; "{}", table.len())?;
            out.push_str(&shown)
        }
        None => out.push_str("none"),
    }
}
