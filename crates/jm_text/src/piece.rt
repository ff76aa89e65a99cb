//! What stands at the front of some bytes.
ghost use Rattle.std.specs.Prelude.{◌≡◌, ◌<◌, ◌≤◌, length, IsTrue, IfSome};
ghost use Rattle.std.specs.List.{prefix_len};
ghost use Rattle.jm_text.specs.Pieces.{is_word_byte, line_length, comment_rest, escapes, text_rest, mark_length, piece_of};
ghost use Rattle.jm_text.specs.Tokens.{FitsIn};

use crate::token::TokenKind;

/// A piece of a file: a number of bytes that are no token, a token of a number of bytes, or a text or a comment
/// that isn't closed.
#[derive(Clone, Copy)]
pub enum Piece {
    Gap(usize),
    Cut(TokenKind, usize),
    Open,
}

/// What stands at the front of the bytes.
#[tactic(auto, unfolding(crate::specs::Pieces::piece_of))]
pub fn piece_of(bytes: &[u8]) -> Piece
    requires { 0 < length bytes.now }
    ensures value { result ≡ piece_of bytes.now }
    ensures fits { FitsIn (length bytes.now) result }
{
    let first = bytes[0];
    if first == b' ' || first == b'\t' || first == b'\r' || first == b'\n' {
        Piece::Gap(1)
    } else if bytes.starts_with(b"//") {
        Piece::Gap(line_length(bytes))
    } else if bytes.starts_with(b"/*") {
        comment_rest(&bytes[2..]).map_or(Piece::Open, |n| Piece::Gap(n + 2))
    } else if first == b'"' || first == b'\'' {
        text_rest(first, &bytes[1..]).map_or(Piece::Open, |n| Piece::Cut(TokenKind::Text, n + 1))
    } else if is_word_byte(first) {
        Piece::Cut(TokenKind::Word, word_length(bytes))
    } else {
        Piece::Cut(TokenKind::Mark, mark_length(bytes))
    }
}

fn is_word_byte(b: u8) -> bool
    ensures { result ≡ is_word_byte b }
{
    b.is_ascii_alphanumeric() || b == b'_' || b == b'$' || b >= 128
}

/// How many bytes stand before the next line feed.
fn line_length(bytes: &[u8]) -> usize
    ensures value { result ≡ line_length bytes.now }
    ensures fits { result ≤ length bytes.now }
{
    let end = bytes.iter().position(|b| *b == b'\n');
    end.unwrap_or(bytes.len())
}

/// How many bytes at the front are of a word.
fn word_length(bytes: &[u8]) -> usize
    ensures value { result ≡ prefix_len is_word_byte bytes.now }
    ensures fits { result ≤ length bytes.now }
{
    let end = bytes.iter().position(|b| !is_word_byte(*b));
    end.unwrap_or(bytes.len())
}

/// After `/*`: how many bytes the comment goes on.
fn comment_rest(bytes: &[u8]) -> Option<usize>
    ensures value { result ≡ comment_rest bytes.now }
    ensures fits { IfSome result (λ n. n ≤ length bytes.now) }
{
    for i in 0..bytes.len() {
        if bytes[i..].starts_with(b"*/") {
            return Some(i + 2);
        }
    }
    None
}

/// After a quote: how many bytes the text goes on.
fn text_rest(quote: u8, bytes: &[u8]) -> Option<usize>
    ensures value { result ≡ text_rest quote bytes.now }
    ensures fits { IfSome result (λ n. n ≤ length bytes.now) }
{
    let mut i = 0;
    while i < bytes.len() {
        let b = bytes[i];
        if b == quote {
            return Some(i + 1);
        }
        if b == b'\n' {
            return None;
        }
        i += if escapes(&bytes[i..]) { 2 } else { 1 };
    }
    None
}

/// Whether a backslash at the front takes the byte after it along.
fn escapes(bytes: &[u8]) -> bool
    ensures value { result ≡ escapes bytes.now }
    ensures fits { IsTrue result → 1 < length bytes.now }
{
    match bytes {
        [b'\\', next, ..] => *next != b'\n',
        _ => false,
    }
}

/// How many bytes the mark at the front has: the longest that stands there.
fn mark_length(bytes: &[u8]) -> usize
    requires { 0 < length bytes.now }
    ensures value { result ≡ mark_length bytes.now }
    ensures some { 0 < result }
    ensures fits { result ≤ length bytes.now }
{
    if bytes.starts_with(b"<=>")
        || bytes.starts_with(b"[*]")
        || bytes.starts_with(b"<*>")
        || bytes.starts_with(b"(*)")
    {
        3
    } else if bytes.starts_with(b"->")
        || bytes.starts_with(b"=>")
        || bytes.starts_with(b"&&")
        || bytes.starts_with(b"||")
    {
        2
    } else {
        1
    }
}
