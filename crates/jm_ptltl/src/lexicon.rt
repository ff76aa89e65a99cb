//! What a token is in a formula.
ghost use Rattle.std.specs.Prelude.{◌≡◌, ◌<◌};
ghost use Rattle.std.specs.Str.{bytes_eq};
ghost use Rattle.jm_text.specs.Spans.{LiesWithin};
ghost use Rattle.jm_text.specs.Texts.{is_name_text};
ghost use Rattle.jm_ptltl.specs.Lexicon.{class_of_mark, class_of_word, class_of, rank_of};

use crate::formula::{Binary, Unary};
use jm_text::{Token, TokenKind, is_name, text};

/// What a token is in a formula.
#[derive(Clone, Copy)]
pub enum Class {
    /// An operator of one part.
    Prefix(Unary),
    /// An operator of two parts.
    Infix(Binary),
    /// `true` or `false`.
    Constant(bool),
    /// The name of an event.
    Name,
    /// `(`
    Open,
    /// `)`
    Close,
    /// No token of a formula.
    Other,
}

impl Binary {
    /// How loosely the operator binds, from 1 to 6.
    pub fn rank(self) -> u8
        ensures { result ≡ rank_of self }
    {
        match self {
            Binary::Since => 1,
            Binary::And => 2,
            Binary::Xor => 3,
            Binary::Or => 4,
            Binary::Implies => 5,
            Binary::Equivalent => 6,
        }
    }
}

fn class_of_mark(mark: &[u8]) -> Class
    ensures { result ≡ class_of_mark mark.now }
{
    match mark {
        b"!" => Class::Prefix(Unary::Not),
        b"[*]" => Class::Prefix(Unary::Historically),
        b"<*>" => Class::Prefix(Unary::Once),
        b"(*)" => Class::Prefix(Unary::Previously),
        b"<=>" => Class::Infix(Binary::Equivalent),
        b"=>" => Class::Infix(Binary::Implies),
        b"||" => Class::Infix(Binary::Or),
        b"&&" => Class::Infix(Binary::And),
        b"(" => Class::Open,
        b")" => Class::Close,
        _ => Class::Other,
    }
}

/// Whether the bytes are these.
fn is(bytes: &[u8], these: &[u8]) -> bool
    ensures { result ≡ bytes_eq bytes.now these.now }
{
    bytes == these
}

/// The class of a word, which is a name or not.
fn class_of_word(word: &[u8], is_name: bool) -> Class
    requires { is_name ≡ is_name_text word.now }
    ensures { result ≡ class_of_word word.now }
{
    if is(word, b"not") {
        Class::Prefix(Unary::Not)
    } else if is(word, b"or") {
        Class::Infix(Binary::Or)
    } else if is(word, b"xor") {
        Class::Infix(Binary::Xor)
    } else if is(word, b"and") {
        Class::Infix(Binary::And)
    } else if is(word, b"S") {
        Class::Infix(Binary::Since)
    } else if is(word, b"true") {
        Class::Constant(true)
    } else if is(word, b"false") {
        Class::Constant(false)
    } else if is_name {
        Class::Name
    } else {
        Class::Other
    }
}

/// What a token is in a formula.
#[tactic(auto, unfolding(crate::specs::Lexicon::class_of))]
pub fn class_of(bytes: &[u8], token: Token) -> Class
    requires { LiesWithin bytes.now token }
    ensures { result ≡ class_of bytes.now token }
{
    match token.kind {
        TokenKind::Word => class_of_word(text(bytes, token), is_name(bytes, token)),
        TokenKind::Mark => class_of_mark(text(bytes, token)),
        TokenKind::Text => Class::Other,
    }
}
