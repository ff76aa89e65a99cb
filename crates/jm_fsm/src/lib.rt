//! State machines, one of the four logics.
//!
//! `read` reads a machine, an `Fsm`, from the tokens of a formula: states with transitions on events, and aliases of
//! states. `Fsm::categories` names what handlers may be written for, and `Fsm::compile` makes a table of states with a
//! group for each of these. What the tokens spell and what a machine means stands in `specs`, apart from the reader and
//! from any table: the grammar as a relation, and the path that a word spells from the first state.
#![tactic(auto)]

mod check;
mod compile;
mod formula;
mod graph;
mod laws;
mod machine;
mod parse;
mod reads;
mod resolve;

pub use laws::{aliases_as_written, one_reading, states_as_written};
pub use machine::{Destination, Fsm};
pub use reads::read;
