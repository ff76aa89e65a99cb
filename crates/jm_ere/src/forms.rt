//! The operators over normal forms. A part of a form is there or is too large: the first fault is the whole's.
ghost use Rattle.std.specs.Prelude.{◌≡◌, Ok, IfOk, IfErr};
ghost use Rattle.jm_table.specs.Graphs.{Answers};
ghost use Rattle.jm_ere.specs.Trees.{expression_of};
ghost use Rattle.jm_ere.specs.Expressions.{Combination};
ghost use Rattle.jm_ere.specs.NormalForms.{Formed, ◌>>=◌ as ◌>>>◌, complement_of, star_of, before, product_of, put, join, combined};

use crate::order::{is_epsilon, is_nothing, is_unit, is_zero, order};
use crate::tree::{Operator, Tree};
use jm_model::SpecError;
use std::alloc::Global;
use std::cmp::Ordering;

/// A copy of an expression.
pub(crate) fn copy(alloc: Global, tree: &Tree) -> Result<Tree, SpecError>
    ensures ok { IfOk result (λ t. expression_of t ≡ expression_of tree.now) }
    ensures err { IfErr result (λ e. e ≡ SpecError.NoMemory) }
{
    match tree {
        Tree::Letter(letter) => Ok(Tree::Letter(*letter)),
        Tree::Epsilon => Ok(Tree::Epsilon),
        Tree::Empty => Ok(Tree::Empty),
        Tree::Not(r) => Ok(Tree::Not(Box::new(alloc, copy(alloc, r)?)?)),
        Tree::Star(r) => Ok(Tree::Star(Box::new(alloc, copy(alloc, r)?)?)),
        Tree::Plus(r) => Ok(Tree::Plus(Box::new(alloc, copy(alloc, r)?)?)),
        Tree::Then(r, s) => {
            let r = copy(alloc, r)?;
            let s = copy(alloc, s)?;
            Ok(Tree::Then(Box::new(alloc, r)?, Box::new(alloc, s)?))
        }
        Tree::Combined(operator, r, s) => pair(alloc, *operator, copy(alloc, r)?, copy(alloc, s)?),
    }
}

/// `r | s`, or `r & s`.
fn pair(alloc: Global, operator: Operator, r: Tree, s: Tree) -> Result<Tree, SpecError>
    ensures ok { IfOk result (λ t. expression_of t ≡ Combination operator (expression_of r) (expression_of s)) }
    ensures err { IfErr result (λ e. e ≡ SpecError.NoMemory) }
{
    Ok(Tree::Combined(operator, Box::new(alloc, r)?, Box::new(alloc, s)?))
}

/// `~r`, where `~~r` is `r`.
pub(crate) fn complement_of(
    alloc: Global,
    inner: Result<Tree, SpecError>,
) -> Result<Tree, SpecError>
    ensures { (n : Formed) → Answers expression_of n inner
        → Answers expression_of (n >>> λ n. Ok (complement_of n)) result }
{
    match inner? {
        Tree::Not(r) => Ok(Box::into_inner(r)),
        r => Ok(Tree::Not(Box::new(alloc, r)?)),
    }
}

/// `r*`, where `empty*` and `epsilon*` are `epsilon`, and `r**` is `r*`.
pub(crate) fn star_of(alloc: Global, inner: Result<Tree, SpecError>) -> Result<Tree, SpecError>
    ensures { (n : Formed) → Answers expression_of n inner → Answers expression_of (n >>> λ n. Ok (star_of n)) result }
{
    match inner? {
        Tree::Empty | Tree::Epsilon => Ok(Tree::Epsilon),
        Tree::Star(r) => Ok(Tree::Star(r)),
        r => Ok(Tree::Star(Box::new(alloc, r)?)),
    }
}

/// `r s`, where `s` is neither `empty` nor `epsilon`.
fn before(alloc: Global, r: Tree, s: Tree) -> Result<Tree, SpecError>
    ensures ok { IfOk result (λ t. expression_of t ≡ before (expression_of r) (expression_of s)) }
    ensures err { IfErr result (λ e. e ≡ SpecError.NoMemory) }
{
    match r {
        Tree::Empty => Ok(Tree::Empty),
        Tree::Epsilon => Ok(s),
        Tree::Then(p, q) => {
            let rest = before(alloc, Box::into_inner(q), s)?;
            Ok(Tree::Then(p, Box::new(alloc, rest)?))
        }
        r => Ok(Tree::Then(Box::new(alloc, r)?, Box::new(alloc, s)?)),
    }
}

/// `r s`, nested to the right, without `epsilon`; with `empty` in it the whole is `empty`.
pub(crate) fn product_of(
    alloc: Global,
    first: Result<Tree, SpecError>,
    rest: Result<Tree, SpecError>,
) -> Result<Tree, SpecError>
    ensures { (n m : Formed) → Answers expression_of n first → Answers expression_of m rest →
        Answers expression_of (n >>> λ n. m >>> λ m. Ok (product_of n m)) result }
{
    let r = first?;
    let s = rest?;
    if is_nothing(&s) {
        return Ok(Tree::Empty);
    }
    if is_epsilon(&s) {
        return Ok(r);
    }
    before(alloc, r, s)
}

/// Puts one more member into a run, which is sorted and without doubles.
fn put(alloc: Global, operator: Operator, t: Tree, run: Tree) -> Result<Tree, SpecError>
    ensures ok { IfOk result (λ u. expression_of u ≡ put operator (expression_of t) (expression_of run)) }
    ensures err { IfErr result (λ e. e ≡ SpecError.NoMemory) }
{
    match (operator, run) {
        (Operator::Or, Tree::Combined(Operator::Or, r, s))
        | (Operator::And, Tree::Combined(Operator::And, r, s)) => match order(&t, &r) {
            Ordering::Less => pair(alloc, operator, t, Tree::Combined(operator, r, s)),
            Ordering::Equal => Ok(Tree::Combined(operator, r, s)),
            Ordering::Greater => {
                let rest = put(alloc, operator, t, Box::into_inner(s))?;
                Ok(Tree::Combined(operator, r, Box::new(alloc, rest)?))
            }
        },
        (_, r) => match order(&t, &r) {
            Ordering::Less => pair(alloc, operator, t, r),
            Ordering::Equal => Ok(r),
            Ordering::Greater => pair(alloc, operator, r, t),
        },
    }
}

/// A member of a run, and the rest of the run. In a run of `|` `empty` is dropped, and with `~empty` the whole is
/// `~empty`; in a run of `&` they change places.
fn join(alloc: Global, operator: Operator, t: Tree, run: Tree) -> Result<Tree, SpecError>
    ensures ok { IfOk result (λ u. expression_of u ≡ join operator (expression_of t) (expression_of run)) }
    ensures err { IfErr result (λ e. e ≡ SpecError.NoMemory) }
{
    if is_unit(operator, &t) || is_zero(operator, &run) {
        return Ok(run);
    }
    if is_zero(operator, &t) || is_unit(operator, &run) {
        return Ok(t);
    }
    put(alloc, operator, t, run)
}

/// `r | s`, or `r & s`: the members of the first, which may be a run, are put among those of the second.
fn combined(alloc: Global, operator: Operator, r: Tree, run: Tree) -> Result<Tree, SpecError>
    ensures ok { IfOk result (λ u. expression_of u ≡ combined operator (expression_of r) (expression_of run)) }
    ensures err { IfErr result (λ e. e ≡ SpecError.NoMemory) }
{
    match (operator, r) {
        (Operator::Or, Tree::Combined(Operator::Or, p, q))
        | (Operator::And, Tree::Combined(Operator::And, p, q)) => {
            let run = combined(alloc, operator, Box::into_inner(p), run)?;
            combined(alloc, operator, Box::into_inner(q), run)
        }
        (_, r) => join(alloc, operator, r, run),
    }
}

/// `r | s`, or `r & s`, of parts.
pub(crate) fn combined_parts(
    alloc: Global,
    operator: Operator,
    first: Result<Tree, SpecError>,
    rest: Result<Tree, SpecError>,
) -> Result<Tree, SpecError>
    ensures { (n m : Formed) → Answers expression_of n first → Answers expression_of m rest →
        Answers expression_of (n >>> λ n. m >>> λ m. Ok (combined operator n m)) result }
{
    let first = first?;
    let rest = rest?;
    combined(alloc, operator, first, rest)
}
