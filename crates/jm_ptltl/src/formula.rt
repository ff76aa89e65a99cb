//! The nodes of a formula.

/// An operator of one part.
#[derive(Clone, Copy, Debug, PartialEq, Eq)]
pub enum Unary {
    /// `!` or `not`.
    Not,
    /// `[*]`: at every position so far.
    Historically,
    /// `<*>`: at some position so far.
    Once,
    /// `(*)`: at the position before.
    Previously,
}

/// An operator of two parts.
#[derive(Clone, Copy, Debug, PartialEq, Eq)]
pub enum Binary {
    /// `<=>`
    Equivalent,
    /// `=>`
    Implies,
    /// `||` or `or`.
    Or,
    /// `xor`
    Xor,
    /// `&&` or `and`.
    And,
    /// `S`: the right part at some position so far, and the left part at every position since.
    Since,
}

/// A node of a formula, which stands after its parts.
#[derive(Clone, Copy)]
pub enum Node<A> {
    /// An event.
    Event(A),
    /// `true` or `false`.
    Constant(bool),
    /// An operator of one part, which ends with the node before.
    Prefix(Unary),
    /// An operator of two parts. The right part is this many nodes and ends with the node before; the left part ends
    /// with the node before these.
    Infix(Binary, usize),
}
