//! A reader over the tokens of a formula. Each rule of the grammar is a function, which takes the tokens that the rule
//! spells from the front of those that are left, and adds the formula's nodes to a list.
ghost use Rattle.std.specs.Prelude.{◌≡◌, ◌≢◌, ◌<◌, ◌≤◌, ◌+◌, ◌-◌, ◌++◌, [], List, length, drop, false, OnOk};
ghost use Rattle.jm_text.specs.declared.token.Token.{Token};
ghost use Rattle.jm_ptltl.specs.declared.formula.Node.{Node};
ghost use Rattle.jm_ptltl.specs.Formulas.{Formula, postfix};
ghost use Rattle.jm_ptltl.specs.Answers.{Takes, Gives};
ghost use Rattle.jm_ptltl.specs.Rules.{class_at, begins, operand_at, atom_at, join_at, part_at, inside_at, formula_at};

use crate::formula::{Binary, Node};
use crate::lexicon::{Class, class_of};
use jm_model::SpecError;
use jm_reading::{Cursor, Items};
use jm_text::Token;

const WHOLE: u8 = 6;

const IMPLIES: u8 = 5;

/// What the next token is.
fn class(cursor: &Cursor) -> Class
    ensures { result ≡ class_at cursor.now.bytes.now cursor.now.rest.now }
{
    match cursor.rest {
        [token, ..] => class_of(cursor.bytes, *token),
        [] => Class::Other,
    }
}

/// Takes the next token, if there is one.
fn skip(cursor: &mut Cursor)
    ensures rest { cursor.new.rest.now ≡ drop 1 cursor.old.rest.now }
    ensures bytes { cursor.new.bytes.now ≡ cursor.old.bytes.now }
{
    if let [_, rest @ ..] = cursor.rest {
        cursor.rest = rest;
    }
}

/// Whether an operator of this rank is next.
fn begins(cursor: &Cursor, rank: u8) -> bool
    ensures { result ≡ begins cursor.now.bytes.now rank cursor.now.rest.now }
{
    match class(cursor) {
        Class::Infix(op) => op.rank() == rank,
        _ => false,
    }
}

/// A formula of a rank.
#[cycle(formula)]
fn part(cursor: &mut Cursor, rank: u8, nodes: &mut Items<Node<Token>>) -> Result<(), SpecError>
    requires { rank ≤ 6 }
    ensures reads { Takes cursor.old result cursor.new (λ bytes inner. part_at bytes inner rank) nodes.old nodes.new }
    ensures bytes { cursor.new.bytes.now ≡ cursor.old.bytes.now }
    ensures left { OnOk result (length cursor.new.rest.now < length cursor.old.rest.now) }
{
    if rank == 0 {
        operand(cursor, nodes)
    } else if rank == IMPLIES {
        implications(cursor, nodes)
    } else {
        joined(cursor, rank, nodes)
    }
}

/// Parts with operators of a rank between them, which group to the left.
#[cycle(formula)]
fn joined(cursor: &mut Cursor, rank: u8, nodes: &mut Items<Node<Token>>) -> Result<(), SpecError>
    requires some { 0 < rank }
    requires bounded { rank ≤ 6 }
    requires other { rank ≢ 5 }
    ensures reads { Takes cursor.old result cursor.new (λ bytes inner. part_at bytes inner rank) nodes.old nodes.new }
    ensures bytes { cursor.new.bytes.now ≡ cursor.old.bytes.now }
    ensures left { OnOk result (length cursor.new.rest.now < length cursor.old.rest.now) }
{
    part(cursor, rank - 1, nodes)?;
    while begins(cursor, rank) {
        join(cursor, rank, nodes)?;
    }
    Ok(())
}

/// An operator of a rank and its right part, after its left part.
#[cycle(formula)]
fn join(cursor: &mut Cursor, rank: u8, nodes: &mut Items<Node<Token>>) -> Result<(), SpecError>
    requires some { 0 < rank }
    requires bounded { rank ≤ 6 }
    ensures reads { (before : List (Node Token)) (f : Formula Token) → nodes.old ≡ before ++ postfix f →
        Takes cursor.old result cursor.new (λ bytes inner. join_at bytes (part_at bytes inner (rank - 1)) f)
        before nodes.new }
    ensures bytes { cursor.new.bytes.now ≡ cursor.old.bytes.now }
    ensures left { OnOk result (length cursor.new.rest.now < length cursor.old.rest.now) }
{
    let Class::Infix(op) = class(cursor) else {
        return Err(cursor.syntax());
    };
    skip(cursor);
    let start = nodes.as_slice().len();
    part(cursor, rank - 1, nodes)?;
    let right = nodes.as_slice().len().saturating_sub(start);
    nodes.push(Node::Infix(op, right))
}

/// Parts with `=>` between them, which group to the right.
#[cycle(formula)]
fn implications(cursor: &mut Cursor, nodes: &mut Items<Node<Token>>) -> Result<(), SpecError>
    ensures reads { Takes cursor.old result cursor.new (λ bytes inner. part_at bytes inner 5) nodes.old nodes.new }
    ensures bytes { cursor.new.bytes.now ≡ cursor.old.bytes.now }
    ensures left { OnOk result (length cursor.new.rest.now < length cursor.old.rest.now) }
{
    let mut starts = Vec::new(cursor.alloc);
    part(cursor, IMPLIES - 1, nodes)?;
    while begins(cursor, IMPLIES) {
        skip(cursor);
        starts.push(nodes.as_slice().len())?;
        part(cursor, IMPLIES - 1, nodes)?;
    }
    while let Some(start) = starts.pop() {
        let right = nodes.as_slice().len().saturating_sub(start);
        nodes.push(Node::Infix(Binary::Implies, right))?;
    }
    Ok(())
}

/// Operators of one part, and an atom.
#[cycle(formula)]
fn operand(cursor: &mut Cursor, nodes: &mut Items<Node<Token>>) -> Result<(), SpecError>
    ensures reads { Takes cursor.old result cursor.new operand_at nodes.old nodes.new }
    ensures bytes { cursor.new.bytes.now ≡ cursor.old.bytes.now }
    ensures left { OnOk result (length cursor.new.rest.now < length cursor.old.rest.now) }
{
    let mut ops = Vec::new(cursor.alloc);
    while let Class::Prefix(op) = class(cursor) {
        skip(cursor);
        ops.push(op)?;
    }
    atom(cursor, nodes)?;
    while let Some(op) = ops.pop() {
        nodes.push(Node::Prefix(op))?;
    }
    Ok(())
}

/// An event, `true`, `false`, or a formula in parentheses.
#[cycle(formula)]
fn atom(cursor: &mut Cursor, nodes: &mut Items<Node<Token>>) -> Result<(), SpecError>
    ensures reads { Takes cursor.old result cursor.new atom_at nodes.old nodes.new }
    ensures bytes { cursor.new.bytes.now ≡ cursor.old.bytes.now }
    ensures left { OnOk result (length cursor.new.rest.now < length cursor.old.rest.now) }
{
    let [token, ..] = cursor.rest else {
        return Err(cursor.syntax());
    };
    let token = *token;
    match class_of(cursor.bytes, token) {
        Class::Name => {
            skip(cursor);
            nodes.push(Node::Event(token))
        }
        Class::Constant(truth) => {
            skip(cursor);
            nodes.push(Node::Constant(truth))
        }
        Class::Open => {
            skip(cursor);
            nested(cursor, nodes)
        }
        _ => Err(cursor.syntax()),
    }
}

/// A formula and the `)` after it.
#[cycle(formula)]
fn nested(cursor: &mut Cursor, nodes: &mut Items<Node<Token>>) -> Result<(), SpecError>
    ensures reads { Takes cursor.old result cursor.new inside_at nodes.old nodes.new }
    ensures bytes { cursor.new.bytes.now ≡ cursor.old.bytes.now }
    ensures left { OnOk result (length cursor.new.rest.now < length cursor.old.rest.now) }
{
    part(cursor, WHOLE, nodes)?;
    let Class::Close = class(cursor) else {
        return Err(cursor.syntax());
    };
    skip(cursor);
    Ok(())
}

/// All tokens as a formula.
pub fn formula(cursor: &mut Cursor) -> Result<Items<Node<Token>>, SpecError>
    ensures { Gives result (formula_at cursor.old.bytes.now cursor.old.rest.now) }
{
    let mut nodes = Items::new(cursor.alloc);
    part(cursor, WHOLE, &mut nodes)?;
    match cursor.rest {
        [] => Ok(nodes),
        _ => Err(cursor.syntax()),
    }
}
