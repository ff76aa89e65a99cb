//! The truth of all subformulas at the last position, as bits of a number, and how a letter changes it.
ghost use Rattle.std.specs.Prelude.{◌≡◌, ◌<◌, ◌≤◌, length};
ghost use Rattle.jm_ptltl.specs.Vectors.{has_bit, was, node_truth, vector_from};

use crate::formula::{Binary, Node, Unary};
use jm_model::Letter;

/// Whether the bit of a place is set.
pub fn has_bit(vector: u64, place: usize) -> bool
    requires { place < 64 }
    ensures { result ≡ has_bit vector place }
{
    vector >> place & 1 == 1
}

/// The bit of a place in the last vector, or `before` at the start.
fn was(last: Option<u64>, place: usize, before: bool) -> bool
    requires { place < 64 }
    ensures { result ≡ was last place before }
{
    match last {
        Some(vector) => has_bit(vector, place),
        None => before,
    }
}

/// The truth of a node at this place, where the bits of the places before are set.
fn node_truth(
    last: Option<u64>,
    letter: Letter,
    place: usize,
    next: u64,
    node: Node<Letter>,
) -> bool
    requires { place < 64 }
    ensures { result ≡ node_truth last letter.0 place next node }
{
    let before = place.saturating_sub(1);
    match node {
        Node::Event(event) => event.0 == letter.0,
        Node::Constant(truth) => truth,
        Node::Prefix(op) => {
            let part = has_bit(next, before);
            match op {
                Unary::Not => !part,
                Unary::Historically => part && was(last, place, true),
                Unary::Once => part || was(last, place, false),
                Unary::Previously => was(last, place.saturating_sub(1), false),
            }
        }
        Node::Infix(op, right) => {
            let left = has_bit(next, before.saturating_sub(right));
            let right = has_bit(next, before);
            match op {
                Binary::Equivalent => left == right,
                Binary::Implies => !left || right,
                Binary::Or => left || right,
                Binary::Xor => left != right,
                Binary::And => left && right,
                Binary::Since => right || (left && was(last, place, false)),
            }
        }
    }
}

/// The next vector of these nodes, from the inside out. Bit k is the truth of node k; `last` is the last vector, or
/// None at the start.
#[tactic(auto, unfolding(crate::specs::Vectors::with_bit))]
pub fn next_vector(nodes: &[Node<Letter>], last: Option<u64>, letter: Letter) -> u64
    requires { length nodes.now ≤ 64 }
    ensures { result ≡ vector_from last letter.0 0 0 nodes.now }
{
    let mut next = 0;
    for (place, node) in nodes.iter().enumerate() {
        if node_truth(last, letter, place, next, *node) {
            next |= 1 << place;
        }
    }
    next
}
