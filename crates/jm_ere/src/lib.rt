//! Extended regular expressions, one of the four logics.
//!
//! `read` reads an expression, an `Ere`, from the tokens of a formula. What the tokens spell stands in `specs`, apart
//! from the reader: the grammar as a relation. `Ere::compile` makes a table of states with a group for each category:
//! the states are the normal forms of the expression's derivatives. What an expression means stands in `specs`, apart
//! from any derivative: its words, by cases on the expression.
#![tactic(auto)]

mod compile;
mod derivative;
mod forms;
mod formula;
mod graph;
mod laws;
mod order;
mod parse;
mod reads;
mod stack;
mod tree;

pub use laws::{forms_are_normal, one_order, one_reading};
pub use reads::read;
pub use tree::{Ere, Operator, Tree};
