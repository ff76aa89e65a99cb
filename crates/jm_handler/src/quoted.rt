//! Texts in double quotes.
ghost use Rattle.std.specs.Prelude.{◌≡◌, ◌<◌, ◌≤◌, ◌∷◌, drop, length, IfOk};
ghost use Rattle.jm_text.specs.Spans.{LiesWithin};
ghost use Rattle.jm_handler.specs.Terms.{is_quoted, inside_of, resolved};

use crate::term::Text;
use jm_model::NoMemory;
use jm_text::{Token, TokenKind, text};
use std::alloc::Global;

/// Whether a token is a text in double quotes.
pub(crate) fn is_quoted(bytes: &[u8], token: Token) -> bool
    requires { LiesWithin bytes.now token }
    ensures { result ≡ is_quoted bytes.now token }
{
    token.kind == TokenKind::Text && text(bytes, token).starts_with(b"\"")
}

/// What stands between the quotes of a text.
pub(crate) fn inside_of(text: &[u8]) -> &[u8]
    ensures { result.now ≡ inside_of text.now }
{
    if text.len() < 2 {
        return &text[..0];
    }
    &text[1..text.len() - 1]
}

/// The bytes with their escapes resolved.
pub(crate) fn resolved(alloc: Global, bytes: &[u8]) -> Result<Text, NoMemory>
    ensures { IfOk result (λ text. text ≡ resolved bytes.now) }
{
    let mut text = Text::new(alloc);
    let mut start = 0;
    while start < bytes.len() {
        let (byte, taken) = first_of(&bytes[start..]);
        text.push(byte)?;
        start += taken;
    }
    Ok(text)
}

/// The first byte of the resolved text, and how many bytes it takes.
fn first_of(bytes: &[u8]) -> (u8, usize)
    requires { 0 < length bytes.now }
    ensures first { resolved bytes.now ≡ result.0 ∷ resolved (drop result.1 bytes.now) }
    ensures some { 0 < result.1 }
    ensures fits { result.1 ≤ length bytes.now }
{
    match bytes {
        [b'\\', b'n', ..] => (b'\n', 2),
        [b'\\', b't', ..] => (b'\t', 2),
        [b'\\', byte @ (b'"' | b'\'' | b'\\'), ..] => (*byte, 2),
        _ => (bytes[0], 1),
    }
}
