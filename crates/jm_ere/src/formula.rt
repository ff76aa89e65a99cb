//! A formula as it is written: its nodes, each after its operands.
use jm_text::Token;

/// An operand.
#[derive(Clone, Copy)]
pub enum Atom {
    Name(Token),
    Epsilon,
    Empty,
}

/// An operator of one operand: `~`, `*` and `+`.
#[derive(Clone, Copy)]
pub enum Unary {
    Not,
    Any,
    Many,
}

/// An operator of two operands: juxtaposition, `|` and `&`.
#[derive(Clone, Copy)]
pub enum Binary {
    Then,
    Either,
    Both,
}

/// A node of a formula. An operator stands after its operands.
#[derive(Clone, Copy)]
pub enum Node {
    Push(Atom),
    Wrap(Unary),
    Join(Binary),
}
