//! The brackets that are open in a run of tokens.
ghost use Rattle.std.specs.Prelude.{◌≡◌, [], ◌∷◌, ◌++◌, ◌==◌, length, true, IfOk, MatchBool, None, Some};
ghost use Rattle.jm_text.specs.Spans.{LiesWithin};
ghost use Rattle.jm_spec.specs.Brackets.{sign_of, sign_of_byte, without_angles, after_sign, closed, hold_commas, is_curly, is_same};

use jm_model::NoMemory;
use jm_text::{Token, TokenKind};
use std::alloc::Global;
use std::marker::Model;

/// A kind of bracket.
#[derive(Clone, Copy)]
pub enum Bracket {
    Round,
    Square,
    Curly,
    Angle,
}

/// What a token means to the runs of the grammar.
#[derive(Clone, Copy)]
pub enum Sign {
    Open(Bracket),
    Close(Bracket),
    Comma,
    Semicolon,
    Plain,
}

/// What the token means.
#[tactic(auto, unfolding(crate::specs::Brackets::sign_of))]
pub fn sign_of(bytes: &[u8], token: Token) -> Sign
    requires { LiesWithin bytes.now token }
    ensures { result ≡ sign_of bytes.now token }
{
    if token.kind == TokenKind::Mark && token.end - token.start == 1 {
        sign_of_byte(bytes[token.start as usize])
    } else {
        Sign::Plain
    }
}

fn sign_of_byte(b: u8) -> Sign
    ensures { result ≡ sign_of_byte b }
{
    match b {
        b'(' => Sign::Open(Bracket::Round),
        b'[' => Sign::Open(Bracket::Square),
        b'{' => Sign::Open(Bracket::Curly),
        b'<' => Sign::Open(Bracket::Angle),
        b')' => Sign::Close(Bracket::Round),
        b']' => Sign::Close(Bracket::Square),
        b'}' => Sign::Close(Bracket::Curly),
        b'>' => Sign::Close(Bracket::Angle),
        b',' => Sign::Comma,
        b';' => Sign::Semicolon,
        _ => Sign::Plain,
    }
}

/// What it means outside a list of parameters.
pub fn without_angles(sign: Sign) -> Sign
    ensures { result ≡ without_angles sign }
{
    match sign {
        Sign::Open(Bracket::Angle) | Sign::Close(Bracket::Angle) => Sign::Plain,
        _ => sign,
    }
}

fn is_same(a: Bracket, b: Bracket) -> bool
    ensures { result ≡ is_same a b }
{
    match (a, b) {
        (Bracket::Round, Bracket::Round) => true,
        (Bracket::Square, Bracket::Square) => true,
        (Bracket::Curly, Bracket::Curly) => true,
        (Bracket::Angle, Bracket::Angle) => true,
        _ => false,
    }
}

fn is_curly(b: Bracket) -> bool
    ensures { result ≡ is_curly b }
{
    match b {
        Bracket::Curly => true,
        _ => false,
    }
}

/// The open brackets, outermost first. Contracts see the list.
#[derive(Drop)]
pub struct Brackets {
    stack: Vec<Bracket>,
    /// How many of them aren't curly.
    holding: usize,
}

impl Model for Brackets {
    ghost use Rattle.std.specs.Prelude.{List, ◌≡◌};
    ghost use Rattle.jm_spec.specs.declared.brackets.Bracket.{Bracket};
    ghost use Rattle.jm_spec.specs.Brackets.{holding_of};

    ghost Value = { List Bracket };

    ghost view = { λ b. b.stack.items };

    ghost invariant = { λ b. b.holding ≡ holding_of b.stack.items };
}

impl Brackets {
    /// None is open.
    pub fn new(alloc: Global) -> Brackets
        ensures { result ≡ [] }
    {
        Brackets {
            stack: Vec::new(alloc),
            holding: 0,
        }
    }

    /// Follows a token, and answers whether the brackets match so far.
    pub fn follow(&mut self, sign: Sign) -> Result<bool, NoMemory>
        ensures { IfOk result (λ matches. MatchBool matches (after_sign self.old sign ≡ Some self.new)
            (after_sign self.old sign ≡ None)) }
    {
        match sign {
            Sign::Open(kind) => self.push(kind),
            Sign::Close(kind) => Ok(self.close(kind)),
            _ => Ok(true),
        }
    }

    fn push(&mut self, kind: Bracket) -> Result<bool, NoMemory>
        ensures { IfOk result (λ matches. (matches ≡ true) × (self.new ≡ self.old ++ kind ∷ [])) }
    {
        self.stack.push(kind)?;
        if !is_curly(kind) {
            self.holding += 1;
        }
        Ok(true)
    }

    fn close(&mut self, kind: Bracket) -> bool
        ensures { MatchBool result (closed kind self.old ≡ Some self.new) (closed kind self.old ≡ None) }
    {
        let Some(innermost) = self.stack.pop() else {
            return false;
        };
        if !is_curly(innermost) {
            self.holding -= 1;
        }
        is_same(innermost, kind)
    }

    /// Whether none is open.
    pub fn is_empty(&self) -> bool
        ensures { result ≡ (length self.now == 0) }
    {
        self.stack.is_empty()
    }

    /// Whether one that keeps a comma from parting parameters is open.
    pub fn hold_commas(&self) -> bool
        ensures { result ≡ hold_commas self.now }
    {
        self.holding > 0
    }
}
