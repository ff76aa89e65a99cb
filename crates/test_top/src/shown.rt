//! Answers as text.
use std::alloc::AllocError;
use testkit::{put_line, text_of};

/// Appends a heading and the lines of a text, with a line `==` at the end where the last one has no line feed.
pub(crate) fn put_text(answer: &mut String, heading: &str, bytes: &[u8]) -> Result<(), AllocError> {
    put_line(answer, heading)?;
    let text = text_of(bytes);
    for line in text.lines() {
        put_line(answer, line)?;
    }
    if !text.is_empty() && !text.ends_with('\n') {
        put_line(answer, "==")?;
    }
    Ok(())
}

/// Appends the last line of a text, if it has any.
pub(crate) fn put_last_line(answer: &mut String, bytes: &[u8]) -> Result<(), AllocError> {
    if bytes.is_empty() {
        return Ok(());
    }
    put_line(answer, last_line(bytes))
}

fn last_line(bytes: &[u8]) -> &str {
    let text = text_of(bytes).trim_end();
    match text.rsplit_once('\n') {
        Some((_, last)) => last,
        None => text,
    }
}
