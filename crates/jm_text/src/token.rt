//! What a token is.

/// The kind of a token.
#[derive(Clone, Copy, Debug, PartialEq, Eq)]
pub enum TokenKind {
    /// The longest run of ASCII letters, digits, `_`, `$` and characters past ASCII.
    Word,
    /// From a `"` or a `'` to the next same one on the line, both with it.
    Text,
    /// One of `<=>`, `[*]`, `<*>`, `(*)`, `->`, `=>`, `&&` and `||`, or one other character.
    Mark,
}

/// A token: its bytes are those from `start` up to `end`, and it begins on `line`, counted from 1.
#[derive(Clone, Copy, Debug, PartialEq, Eq)]
pub struct Token {
    pub kind: TokenKind,
    pub start: u32,
    pub end: u32,
    pub line: u32,
}
