//! The formula over letters that a formula says.
ghost use Rattle.std.specs.Prelude.{◌≡◌, [], IfOk};
ghost use Rattle.jm_text.specs.declared.token.Token.{Token};
ghost use Rattle.jm_events.specs.Events.{event_names};
ghost use Rattle.jm_ptltl.specs.Formulas.{Formula, postfix};
ghost use Rattle.jm_ptltl.specs.Faults.{formula_said, with_node, first_fault};
ghost use Rattle.jm_reading.specs.Faults.{Answers, Checks, with_each};

use crate::check::Words;
use crate::formula::Node;
use crate::past::Past;
use jm_events::EventTable;
use jm_model::{Counted, Letter, SpecError, SpecFault};
use jm_reading::{Items, check_event_names, letter_of};
use jm_text::Token;
use std::alloc::Global;

const MAX_SUBFORMULAS: usize = 64;

/// The nodes over letters that nodes say.
fn nodes_of(
    alloc: Global,
    bytes: &[u8],
    table: &EventTable,
    nodes: &[Node<Token>],
) -> Result<Items<Node<Letter>>, SpecError>
    ensures { Answers result (with_each (with_node bytes.now (event_names table.now)) [] nodes.now) }
{
    let mut said = Items::new(alloc);
    for node in nodes {
        said.push(match *node {
            Node::Event(token) => Node::Event(letter_of(bytes, table, token)?),
            Node::Constant(truth) => Node::Constant(truth),
            Node::Prefix(op) => Node::Prefix(op),
            Node::Infix(op, right) => Node::Infix(op, right),
        })?;
    }
    Ok(said)
}

/// The formula over letters that the nodes of a formula say, or the fault of the first step that has one.
pub fn past_of(
    alloc: Global,
    bytes: &[u8],
    nodes: &[Node<Token>],
    table: &EventTable,
) -> Result<Past, SpecError>
    requires { (f : Formula Token) × (nodes.now ≡ postfix f) }
    ensures said { (f : Formula Token) → nodes.now ≡ postfix f
        → IfOk result (λ past. formula_said bytes.now (event_names table.now) f ≡ Ok past) }
    ensures checked { (f : Formula Token) → nodes.now ≡ postfix f → Checks result (first_fault bytes.now table.now f) }
{
    if nodes.len() > MAX_SUBFORMULAS {
        let what = Counted::Subformulas;
        return Err(SpecFault::TooMany { what }.into());
    }
    check_event_names::<Words>(table)?;
    let said = nodes_of(alloc, bytes, table, nodes)?;
    Ok(Past {
        nodes: said.into_vec(),
    })
}
