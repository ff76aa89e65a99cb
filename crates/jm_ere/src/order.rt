//! The fixed order of expressions, and the kinds that rules ask for.
ghost use Rattle.std.specs.Prelude.{◌≡◌, ◌↔◌, IsTrue};
ghost use Rattle.jm_ere.specs.Trees.{expression_of};
ghost use Rattle.jm_ere.specs.NormalForms.{rank, rank_of_operator, order, is_nothing, is_everything, is_epsilon, is_product, is_run, is_unit, is_zero, is_nullable};

use crate::tree::{Operator, Tree};
use std::cmp::Ordering;

/// Where the kind of an expression stands in the order.
fn rank(tree: &Tree) -> u8
    ensures { result ≡ rank (expression_of tree.now) }
{
    match tree {
        Tree::Letter(_) => 0,
        Tree::Epsilon => 1,
        Tree::Empty => 2,
        Tree::Not(_) => 3,
        Tree::Star(_) => 4,
        Tree::Plus(_) => 5,
        Tree::Then(_, _) => 6,
        Tree::Combined(_, _, _) => 7,
    }
}

/// `|` comes before `&`.
fn rank_of_operator(operator: Operator) -> u8
    ensures { result ≡ rank_of_operator operator }
{
    match operator {
        Operator::Or => 0,
        Operator::And => 1,
    }
}

/// By kind and operator, and then part by part.
pub(crate) fn order(a: &Tree, b: &Tree) -> Ordering
    ensures { result ≡ order (expression_of a.now) (expression_of b.now) }
{
    match (a, b) {
        (Tree::Letter(x), Tree::Letter(y)) => x.0.cmp(&y.0),
        (Tree::Not(r), Tree::Not(s)) => order(r, s),
        (Tree::Star(r), Tree::Star(s)) => order(r, s),
        (Tree::Plus(r), Tree::Plus(s)) => order(r, s),
        (Tree::Then(r, s), Tree::Then(p, q)) => order(r, p).then(order(s, q)),
        (Tree::Combined(operator, r, s), Tree::Combined(other, p, q)) => {
            rank_of_operator(*operator)
                .cmp(&rank_of_operator(*other))
                .then(order(r, p))
                .then(order(s, q))
        }
        _ => rank(a).cmp(&rank(b)),
    }
}

/// Whether two expressions are the same.
#[tactic(auto, using(crate::proofs::OrderLemmas::order_tells, crate::proofs::OrderLemmas::order_same))]
pub(crate) fn is_same(a: &Tree, b: &Tree) -> bool
    ensures { IsTrue result ↔ (expression_of a.now ≡ expression_of b.now) }
{
    order(a, b).is_eq()
}

/// Whether it is `empty`.
pub(crate) fn is_nothing(tree: &Tree) -> bool
    ensures { result ≡ is_nothing (expression_of tree.now) }
{
    matches!(tree, Tree::Empty)
}

/// Whether it is `~empty`.
fn is_everything(tree: &Tree) -> bool
    ensures { result ≡ is_everything (expression_of tree.now) }
{
    match tree {
        Tree::Not(r) => is_nothing(r),
        _ => false,
    }
}

pub(crate) fn is_epsilon(tree: &Tree) -> bool
    ensures { result ≡ is_epsilon (expression_of tree.now) }
{
    matches!(tree, Tree::Epsilon)
}

pub(crate) fn is_product(tree: &Tree) -> bool
    ensures { result ≡ is_product (expression_of tree.now) }
{
    matches!(tree, Tree::Then(_, _))
}

/// Whether it is made by the operator.
pub(crate) fn is_run(operator: Operator, tree: &Tree) -> bool
    ensures { result ≡ is_run operator (expression_of tree.now) }
{
    match (operator, tree) {
        (Operator::Or, Tree::Combined(Operator::Or, _, _)) => true,
        (Operator::And, Tree::Combined(Operator::And, _, _)) => true,
        _ => false,
    }
}

/// Whether a run of the operator is the same without it: `empty` in one of `|`, and `~empty` in one of `&`.
pub(crate) fn is_unit(operator: Operator, tree: &Tree) -> bool
    ensures { result ≡ is_unit operator (expression_of tree.now) }
{
    match operator {
        Operator::Or => is_nothing(tree),
        Operator::And => is_everything(tree),
    }
}

/// Whether a run of the operator is it wherever it is a member: `~empty` in one of `|`, and `empty` in one of `&`.
pub(crate) fn is_zero(operator: Operator, tree: &Tree) -> bool
    ensures { result ≡ is_zero operator (expression_of tree.now) }
{
    match operator {
        Operator::Or => is_everything(tree),
        Operator::And => is_nothing(tree),
    }
}

/// Whether the empty word is in the language.
pub(crate) fn is_nullable(tree: &Tree) -> bool
    ensures { result ≡ is_nullable (expression_of tree.now) }
{
    match tree {
        Tree::Letter(_) | Tree::Empty => false,
        Tree::Epsilon | Tree::Star(_) => true,
        Tree::Not(r) => !is_nullable(r),
        Tree::Plus(r) => is_nullable(r),
        Tree::Then(r, s) => is_nullable(r) && is_nullable(s),
        Tree::Combined(Operator::Or, r, s) => is_nullable(r) || is_nullable(s),
        Tree::Combined(Operator::And, r, s) => is_nullable(r) && is_nullable(s),
    }
}
