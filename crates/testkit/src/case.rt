use crate::expand::expand;
use std::alloc::{AllocError, Global};

/// One case.
#[derive(Drop)]
pub struct Case {
    /// What is to be done.
    pub verb: String,
    /// The words after the verb, and those after the `/`, as they stand.
    pub first: String,
    pub second: String,
    /// The lines of the text, each but the last with its line feed.
    pub text: Vec<u8>,
    text_lines: usize,
    /// The lines of the answer, likewise.
    pub wanted: String,
    wanted_lines: usize,
    /// The line of the case, from 1.
    pub line: usize,
}

/// The cases of a text.
pub fn cases(alloc: Global, text: &str) -> Result<Vec<Case>, AllocError> {
    let mut cases = Vec::new(alloc);
    let mut number = 0usize;
    for line in text.lines() {
        number = number.wrapping_add(1);
        if let Some(head) = line.strip_prefix("> ") {
            cases.push(begin(alloc, head, number)?)?;
        } else if let Some(case) = cases.last_mut() {
            add(alloc, case, line)?;
        }
    }
    Ok(cases)
}

fn begin(alloc: Global, head: &str, line: usize) -> Result<Case, AllocError> {
    let (verb, rest) = head.split_once(' ').unwrap_or((head, ""));
    let (first, second) = rest.split_once(" / ").unwrap_or((rest, ""));
    Ok(Case {
        verb: String::from_str(alloc, verb)?,
        first: String::from_str(alloc, first)?,
        second: String::from_str(alloc, second)?,
        text: Vec::new(alloc),
        text_lines: 0,
        wanted: String::new(alloc),
        wanted_lines: 0,
        line,
    })
}

fn add(alloc: Global, case: &mut Case, line: &str) -> Result<(), AllocError> {
    if let Some(wanted) = line.strip_prefix("< ") {
        if case.wanted_lines > 0 {
            case.wanted.push('\n')?;
        }
        case.wanted_lines = case.wanted_lines.wrapping_add(1);
        return case.wanted.push_str(wanted);
    }
    if line.starts_with("--") {
        return Ok(());
    }
    if case.text_lines > 0 {
        case.text.push(b'\n')?;
    }
    case.text_lines = case.text_lines.wrapping_add(1);
    match line.strip_prefix("% ") {
        Some(line) => expand(alloc, &mut case.text, line.as_bytes()),
        None => case.text.extend_from_slice(line.as_bytes()),
    }
}
