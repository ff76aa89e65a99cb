//! Normal forms of written expressions, their derivatives (Brzozowski 1964; Owens, Reppy and Turon 2009) and their sizes.
ghost use Rattle.std.specs.Prelude.{◌≡◌, ◌+◌, ◌<◌, false, IfSome, IfNone};
ghost use Rattle.jm_table.specs.Graphs.{Answers};
ghost use Rattle.jm_ere.specs.Trees.{expression_of};
ghost use Rattle.jm_ere.specs.NormalForms.{Formed, is_product, is_run, size_of, part, normal_run, normal_form, derivative_run, derivative};

use crate::forms::{combined_parts, complement_of, copy, product_of, star_of};
use crate::order::{is_nullable, is_product, is_run};
use crate::tree::{Operator, Tree};
use jm_model::{Counted, Letter, SpecError, SpecFault};
use std::alloc::Global;

/// How many nodes a normal form may have.
const MAX_NODES: u16 = 4096;

/// The normal form of a written expression. The fault is `TooMany` term where it, or a part of which it is made, has
/// more than 4,096 nodes.
pub(crate) fn normal_form(alloc: Global, tree: &Tree) -> Result<Tree, SpecError>
    ensures { Answers expression_of (normal_form (expression_of tree.now)) result }
{
    fitting(normal_run(alloc, tree))
}

/// The normal form whose own size isn't asked yet. The members of a run of one operator are made first, and the run at
/// once from them.
fn normal_run(alloc: Global, tree: &Tree) -> Result<Tree, SpecError>
    ensures { Answers expression_of (normal_run (expression_of tree.now)) result }
{
    match tree {
        Tree::Letter(letter) => Ok(Tree::Letter(*letter)),
        Tree::Epsilon => Ok(Tree::Epsilon),
        Tree::Empty => Ok(Tree::Empty),
        Tree::Not(r) => complement_of(alloc, fitting(normal_run(alloc, r))),
        Tree::Star(r) => star_of(alloc, fitting(normal_run(alloc, r))),
        Tree::Plus(r) => {
            let inner = fitting(normal_run(alloc, r))?;
            let rest = fitting(star_of(alloc, copy(alloc, &inner)));
            product_of(alloc, Ok(inner), rest)
        }
        Tree::Then(r, s) => {
            let first = product_part(r, normal_run(alloc, r));
            let rest = product_part(s, normal_run(alloc, s));
            product_of(alloc, first, rest)
        }
        Tree::Combined(operator, r, s) => {
            let first = run_part(*operator, r, normal_run(alloc, r));
            let rest = run_part(*operator, s, normal_run(alloc, s));
            combined_parts(alloc, *operator, first, rest)
        }
    }
}

/// The derivative of a normal form by a letter: the words that may follow the letter. The fault is `TooMany` term where
/// it, or a part of which it is made, has more than 4,096 nodes.
pub(crate) fn derivative(alloc: Global, tree: &Tree, letter: Letter) -> Result<Tree, SpecError>
    ensures { Answers expression_of (derivative letter.0 (expression_of tree.now)) result }
{
    fitting(derivative_run(alloc, tree, letter))
}

/// The derivative whose own size isn't asked yet.
fn derivative_run(alloc: Global, tree: &Tree, letter: Letter) -> Result<Tree, SpecError>
    ensures { Answers expression_of (derivative_run letter.0 (expression_of tree.now)) result }
{
    match tree {
        Tree::Letter(other) => {
            if letter.0 == other.0 {
                Ok(Tree::Epsilon)
            } else {
                Ok(Tree::Empty)
            }
        }
        Tree::Epsilon | Tree::Empty => Ok(Tree::Empty),
        Tree::Not(r) => complement_of(alloc, fitting(derivative_run(alloc, r, letter))),
        Tree::Star(r) => {
            let first = fitting(derivative_run(alloc, r, letter));
            product_of(alloc, first, copy(alloc, tree))
        }
        Tree::Plus(r) => {
            let first = fitting(derivative_run(alloc, r, letter));
            product_of(alloc, first, star_of(alloc, copy(alloc, r)))
        }
        Tree::Then(r, s) => {
            let first = fitting(derivative_run(alloc, r, letter));
            let front = product_of(alloc, first, copy(alloc, s));
            if !is_nullable(r) {
                return front;
            }
            let second = fitting(derivative_run(alloc, s, letter));
            combined_parts(alloc, Operator::Or, fitting(front), second)
        }
        Tree::Combined(operator, r, s) => {
            let first = fitting(derivative_run(alloc, r, letter));
            let rest = run_part(*operator, s, derivative_run(alloc, s, letter));
            combined_parts(alloc, *operator, first, rest)
        }
    }
}

/// What is left of a room for nodes when a form has taken its own, if it has room.
fn room_after(tree: &Tree, room: u16) -> Option<u16>
    ensures enough { IfSome result (λ left. size_of (expression_of tree.now) + left ≡ room) }
    ensures lacking { IfNone result (room < size_of (expression_of tree.now)) }
{
    match tree {
        Tree::Letter(_) | Tree::Epsilon | Tree::Empty => room.checked_sub(1),
        Tree::Not(r) | Tree::Star(r) | Tree::Plus(r) => room_after(r, room.checked_sub(1)?),
        Tree::Then(r, s) => room_after(s, room_after(r, room.checked_sub(1)?)?),
        Tree::Combined(operator, r, s) => {
            let own = if is_run(*operator, s) { 0 } else { 1 };
            room_after(s, room_after(r, room.checked_sub(own)?)?)
        }
    }
}

/// A form, or the fault of one with more than 4,096 nodes.
fn fitting(formed: Result<Tree, SpecError>) -> Result<Tree, SpecError>
    ensures { (r : Formed) → Answers expression_of r formed → Answers expression_of (part false r) result }
{
    let tree = formed?;
    match room_after(&tree, MAX_NODES) {
        Some(_) => Ok(tree),
        None => {
            let what = Counted::Term;
            Err(SpecFault::TooMany { what }.into())
        }
    }
}

/// What is made of a part of a product: it has to fit, unless the part is a product itself.
fn product_part(tree: &Tree, formed: Result<Tree, SpecError>) -> Result<Tree, SpecError>
    ensures { (r : Formed) → Answers expression_of r formed
        → Answers expression_of (part (is_product (expression_of tree.now)) r) result }
{
    if is_product(tree) {
        formed
    } else {
        fitting(formed)
    }
}

/// What is made of a part of a run of an operator: it has to fit, unless the part is such a run itself.
fn run_part(
    operator: Operator,
    tree: &Tree,
    formed: Result<Tree, SpecError>,
) -> Result<Tree, SpecError>
    ensures { (r : Formed) → Answers expression_of r formed
        → Answers expression_of (part (is_run operator (expression_of tree.now)) r) result }
{
    if is_run(operator, tree) {
        formed
    } else {
        fitting(formed)
    }
}
