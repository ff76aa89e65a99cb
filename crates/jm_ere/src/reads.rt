//! The reader of a regular expression.
ghost use Rattle.std.specs.Prelude.{◌≡◌, OnOk, IfOk, IfErr};
ghost use Rattle.jm_text.specs.Spans.{LieWithin};
ghost use Rattle.jm_reading.specs.Faults.{Makes, Checks};
ghost use Rattle.jm_events.specs.Events.{event_names};
ghost use Rattle.jm_ere.specs.Faults.{is_grammar_word, wrapped, joined, with_node, Leave, fault_of_nodes};
ghost use Rattle.jm_ere.specs.Readings.{IsReadFrom, IsRefused};
ghost use Rattle.jm_ere.specs.Rules.{IsWritten};

use crate::formula::{Atom, Binary, Node, Unary};
use crate::parse::parse;
use crate::stack::Stack;
use crate::tree::{Ere, Operator, Tree};
use jm_events::EventTable;
use jm_model::{Counted, SpecError, SpecFault};
use jm_reading::{GrammarWords, check_event_names, check_nesting, letter_of};
use jm_text::Token;
use std::alloc::Global;

const MAX_FORMULA_NODES: usize = 256;

/// The words that stand for something else than an event.
struct Words;

impl GrammarWords for Words {
    ghost reserved = { is_grammar_word };

    fn is_reserved(name: &str) -> bool {
        name == "epsilon" || name == "empty"
    }
}

/// The regular expression of a formula, whose tokens these are. The token before them is on the line.
///
/// `TooMany` nesting comes exactly where a 65th parenthesis is open at once, and `Syntax` exactly where that isn't so
/// and the grammar doesn't spell the tokens. Its line is that of the first token that can't go on, or of the last token
/// at the end, and the given one in an empty formula. Each other fault is that of the first step that has one:
/// `TooMany` nodes, `ReservedName`, `UnknownName`. Within a step the first token that offends gives the line.
///
/// The tokens are read in one pass without recursion, in the manner of operator precedence (Floyd 1963).
pub fn read(
    alloc: Global,
    bytes: &[u8],
    tokens: &[Token],
    line: u32,
    table: &EventTable,
) -> Result<Ere, SpecError>
    requires { LieWithin bytes.now tokens.now }
    ensures ok { IfOk result (IsReadFrom bytes.now tokens.now table.now) }
    ensures err { IfErr result (IsRefused bytes.now tokens.now table.now) }
{
    check_nesting(bytes, tokens)?;
    let nodes = parse(alloc, bytes, tokens, line)?;
    expression_of(alloc, bytes, nodes.as_slice(), table)
}

/// The expression of nodes that are a formula's, or the fault of the first step that has one.
#[tactic(auto, unfolding(crate::specs::Faults::fault_of_nodes))]
fn expression_of(
    alloc: Global,
    bytes: &[u8],
    nodes: &[Node],
    table: &EventTable,
) -> Result<Ere, SpecError>
    requires { IsWritten nodes.now }
    ensures ok { IfOk result (Leave bytes.now (event_names table.now) nodes.now) }
    ensures checked { Checks result (fault_of_nodes bytes.now table.now nodes.now) }
{
    if nodes.len() > MAX_FORMULA_NODES {
        let what = Counted::Nodes;
        return Err(SpecFault::TooMany { what }.into());
    }
    check_event_names::<Words>(table)?;
    let mut stack = Stack::new(alloc);
    for node in nodes {
        apply(alloc, bytes, table, &mut stack, *node)?;
    }
    match stack.pop() {
        Some(ere) => Ok(ere),
        None => unreachable!(),
    }
}

fn apply(
    alloc: Global,
    bytes: &[u8],
    table: &EventTable,
    stack: &mut Stack<Ere>,
    node: Node,
) -> Result<(), SpecError>
    ensures { Makes result stack.new (with_node bytes.now (event_names table.now) stack.old node) }
{
    match node {
        Node::Push(Atom::Name(token)) => {
            let letter = letter_of(bytes, table, token)?;
            stack.push(Ere::new(Tree::Letter(letter)))
        }
        Node::Push(Atom::Epsilon) => stack.push(Ere::new(Tree::Epsilon)),
        Node::Push(Atom::Empty) => stack.push(Ere::new(Tree::Empty)),
        Node::Wrap(operator) => wrap(alloc, stack, operator),
        Node::Join(operator) => join(alloc, stack, operator),
    }
}

fn wrap(alloc: Global, stack: &mut Stack<Ere>, operator: Unary) -> Result<(), SpecError>
    ensures ok { OnOk result (stack.new ≡ wrapped operator stack.old) }
    ensures err { IfErr result (λ e. e ≡ SpecError.NoMemory) }
{
    let Some(r) = stack.pop() else {
        return Ok(());
    };
    let r = Box::new(alloc, r.tree)?;
    match operator {
        Unary::Not => stack.push(Ere::new(Tree::Not(r))),
        Unary::Any => stack.push(Ere::new(Tree::Star(r))),
        Unary::Many => stack.push(Ere::new(Tree::Plus(r))),
    }
}

fn join(alloc: Global, stack: &mut Stack<Ere>, operator: Binary) -> Result<(), SpecError>
    ensures ok { OnOk result (stack.new ≡ joined operator stack.old) }
    ensures err { IfErr result (λ e. e ≡ SpecError.NoMemory) }
{
    let Some(s) = stack.pop() else {
        return Ok(());
    };
    let Some(r) = stack.pop() else {
        return Ok(());
    };
    let r = Box::new(alloc, r.tree)?;
    let s = Box::new(alloc, s.tree)?;
    match operator {
        Binary::Then => stack.push(Ere::new(Tree::Then(r, s))),
        Binary::Either => stack.push(Ere::new(Tree::Combined(Operator::Or, r, s))),
        Binary::Both => stack.push(Ere::new(Tree::Combined(Operator::And, r, s))),
    }
}
