//! What a token says.
ghost use Rattle.std.specs.Prelude.{◌≡◌, ◌↔◌, true, IsSome, IfSome};
ghost use Rattle.std.specs.List.{list_all};
ghost use Rattle.jm_text.specs.Spans.{LiesWithin, text_of};
ghost use Rattle.jm_text.specs.Texts.{is_word, is_mark, is_name, is_name_byte, is_name_text};

use crate::token::{Token, TokenKind};
use std::str::from_utf8;

/// The bytes of a token.
pub fn text<'a>(bytes: &'a [u8], token: Token) -> &'a [u8]
    requires { LiesWithin bytes.now token }
    ensures { result.now ≡ text_of bytes.now token }
{
    &bytes[token.start as usize..token.end as usize]
}

/// Whether the token is this word.
pub fn is_word(bytes: &[u8], token: Token, word: &[u8]) -> bool
    requires { LiesWithin bytes.now token }
    ensures { result ≡ is_word bytes.now token word.now }
{
    token.kind == TokenKind::Word && text(bytes, token) == word
}

/// Whether the token is this mark.
pub fn is_mark(bytes: &[u8], token: Token, mark: &[u8]) -> bool
    requires { LiesWithin bytes.now token }
    ensures { result ≡ is_mark bytes.now token mark.now }
{
    token.kind == TokenKind::Mark && text(bytes, token) == mark
}

/// Whether the token is a name: a word of ASCII letters, digits, `_` and `$` that doesn't begin with a digit.
pub fn is_name(bytes: &[u8], token: Token) -> bool
    requires { LiesWithin bytes.now token }
    ensures { result ≡ is_name bytes.now token }
{
    token.kind == TokenKind::Word && is_name_text(text(bytes, token))
}

/// The text of a token that is a name.
pub fn name<'a>(bytes: &'a [u8], token: Token) -> Option<&'a str>
    requires { LiesWithin bytes.now token }
    ensures found { IsSome result ↔ (is_name bytes.now token ≡ true) }
    ensures value { IfSome result (λ s. s.now ≡ text_of bytes.now token) }
{
    if is_name(bytes, token) {
        from_utf8(text(bytes, token)).ok()
    } else {
        None
    }
}

/// Whether these are the bytes of a name: ASCII letters, digits, `_` and `$`, at least one, and the first no digit.
pub fn is_name_text(bytes: &[u8]) -> bool
    ensures { result ≡ is_name_text bytes.now }
{
    match bytes.first() {
        None => false,
        Some(first) => !first.is_ascii_digit() && are_name_bytes(bytes),
    }
}

fn are_name_bytes(bytes: &[u8]) -> bool
    ensures { result ≡ list_all is_name_byte bytes.now }
{
    bytes
        .iter()
        .all(|b| b.is_ascii_alphanumeric() || *b == b'_' || *b == b'$')
}
