//! Frames of specifications.

use jm_model::{SpecError, SpecFault};
use jm_spec::{PropertyTree, SpecTree, read_spec};
use jm_text::Token;
use std::alloc::{AllocError, Global};
use testkit::{Case, put_word};
use testkit_tokens::{put_events, put_params, said, tokens_of};

/// What a specification says: the name, `full` where it is full-binding, `suffix` with its line, the parameters, each
/// event with its mask, its line and a `+` where it is a creation event; and of each property the logic with its line,
/// the formula, and each handler with its text.
pub(crate) fn spec(alloc: Global, case: &Case) -> Result<String, SpecError> {
    let bytes = case.text.as_slice();
    let all = tokens_of(alloc, bytes)?;
    let tree = read_spec(alloc, bytes, all.as_slice())?;
    Ok(tree_text(alloc, bytes, all.as_slice(), &tree)?)
}

fn tree_text(
    alloc: Global,
    bytes: &[u8],
    all: &[Token],
    tree: &SpecTree,
) -> Result<String, AllocError> {
    let mut out = head_text(alloc, bytes, tree)?;
    for property in &tree.properties {
        put_logic(alloc, &mut out, property)?;
        put_texts(&mut out, bytes, all, property)?;
    }
    Ok(out)
}

/// Appends the formula and the handlers.
fn put_texts(
    out: &mut String,
    bytes: &[u8],
    all: &[Token],
    property: &PropertyTree,
) -> Result<(), AllocError> {
    put_range(out, bytes, all, property.first, property.last)?;
    put_handlers(out, bytes, all, property)
}

fn head_text(alloc: Global, bytes: &[u8], tree: &SpecTree) -> Result<String, AllocError> {
    let mut out = String::from_str(alloc, said(bytes, tree.name))?;
    if tree.full_binding {
        put_word(&mut out, "full")?;
    }
    put_suffix(alloc, &mut out, tree.suffix)?;
    put_params(&mut out, &tree.table)?;
    put_events(alloc, &mut out, &tree.table)?;
    Ok(out)
}

fn put_suffix(alloc: Global, out: &mut String, suffix: Option<u32>) -> Result<(), AllocError> {
    if let Some(line) = suffix {
        let shown = format!(in alloc; "suffix/{line}")?;
        put_word(out, shown.as_str())?;
    }
    Ok(())
}

fn put_logic(alloc: Global, out: &mut String, property: &PropertyTree) -> Result<(), AllocError> {
    let logic = property.logic;
    let line = property.logic_line;
    let shown = format!(in alloc; "{logic:?}/{line}:")?;
    put_word(out, shown.as_str())
}

fn put_handlers(
    out: &mut String,
    bytes: &[u8],
    all: &[Token],
    property: &PropertyTree,
) -> Result<(), AllocError> {
    for handler in &property.handlers {
        put_word(out, "@")?;
        out.push_str(said(bytes, handler.category))?;
        out.push(':')?;
        put_range(out, bytes, all, handler.first, handler.last)?;
    }
    Ok(())
}

/// Appends the tokens of a range, with a comma after each.
fn put_range(
    out: &mut String,
    bytes: &[u8],
    all: &[Token],
    first: u32,
    last: u32,
) -> Result<(), AllocError> {
    for (place, token) in all.iter().enumerate() {
        if first as usize <= place && place < last as usize {
            out.push_str(said(bytes, *token))?;
            out.push(',')?;
        }
    }
    Ok(())
}

/// How many of the proper prefixes of a text are not refused for what is missing.
pub(crate) fn prefixes(alloc: Global, case: &Case) -> Result<String, SpecError> {
    let bytes = case.text.as_slice();
    let mut accepted = 0u32;
    for end in 0..bytes.len() {
        if !is_cut_off(alloc, &bytes[..end]) {
            accepted = accepted.wrapping_add(1);
        }
    }
    Ok(format!(in alloc; "{accepted} of {}", bytes.len())?)
}

/// Whether a text is refused as a specification that is not at its end.
fn is_cut_off(alloc: Global, bytes: &[u8]) -> bool {
    match parsed(alloc, bytes) {
        Err(SpecError::Bad(SpecFault::OpenText { .. } | SpecFault::Syntax { .. })) => true,
        _ => false,
    }
}

fn parsed(alloc: Global, bytes: &[u8]) -> Result<SpecTree, SpecError> {
    let all = tokens_of(alloc, bytes)?;
    read_spec(alloc, bytes, all.as_slice())
}

/// Calls the laws, which only state what holds.
pub(crate) fn laws(alloc: Global) -> Result<String, SpecError> {
    jm_text::one_reading();
    jm_spec::one_reading();
    jm_spec::member_ends();
    Ok(String::from_str(alloc, "called")?)
}
