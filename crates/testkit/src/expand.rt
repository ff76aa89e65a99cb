ghost use Rattle.std.specs.Prelude.{◌<◌};

use std::alloc::{AllocError, Global};

/// Appends a line with its escapes resolved.
pub(crate) fn expand(alloc: Global, out: &mut Vec<u8>, line: &[u8]) -> Result<(), AllocError> {
    let mut rest = line;
    for _ in 0..line.len() {
        rest = match rest {
            [] => return Ok(()),
            [b'\\', b'{', more @ ..] => repeat(alloc, out, more)?,
            [b'\\', b'x', high, low, more @ ..] => {
                out.push(digit(*high) * 16 + digit(*low))?;
                more
            }
            [b'\\', escaped, more @ ..] => {
                out.push(byte_of(*escaped))?;
                more
            }
            [byte, more @ ..] => {
                out.push(*byte)?;
                more
            }
        };
    }
    Ok(())
}

fn byte_of(escaped: u8) -> u8 {
    match escaped {
        b'n' => b'\n',
        b't' => b'\t',
        b'r' => b'\r',
        other => other,
    }
}

fn digit(byte: u8) -> u8
    ensures { result < 16 }
{
    match byte {
        b'0'..=b'9' => byte - b'0',
        b'a'..=b'f' => byte - b'a' + 10,
        _ => 0,
    }
}

/// Appends what `COUNT TEXT}` at the front stands for, and gives what is after it.
fn repeat<'a>(alloc: Global, out: &mut Vec<u8>, text: &'a [u8]) -> Result<&'a [u8], AllocError> {
    let end = text
        .iter()
        .position(|byte| *byte == b'}')
        .unwrap_or(text.len());
    let inside = &text[..end];
    let space = inside
        .iter()
        .position(|byte| *byte == b' ')
        .unwrap_or(inside.len());
    let count = number_of(&inside[..space]);
    for number in 0..count {
        put_once(alloc, out, &inside[space..], number)?;
    }
    match &text[end..] {
        [b'}', more @ ..] => Ok(more),
        rest => Ok(rest),
    }
}

fn number_of(digits: &[u8]) -> u32 {
    let mut number = 0u32;
    for byte in digits {
        number = number
            .wrapping_mul(10)
            .wrapping_add(u32::from(digit(*byte)));
    }
    number
}

/// Appends a text after the space at its front, with a number in the place of each `#`.
fn put_once(alloc: Global, out: &mut Vec<u8>, text: &[u8], number: u32) -> Result<(), AllocError> {
    for byte in text.iter().skip(1) {
        if *byte == b'#' {
            let digits = format!(in alloc; "{number}")?;
            out.extend_from_slice(digits.as_bytes())?;
        } else {
            out.push(*byte)?;
        }
    }
    Ok(())
}
