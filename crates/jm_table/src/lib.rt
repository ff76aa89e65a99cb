//! Tables of transitions, on which three of the logics run: a state for each node of a graph that a word reaches.
//!
//! A logic says as a `Graph` what its nodes stand for and where letters lead; `build` numbers the nodes that are
//! reached, breadth first, and gives them a `Table`; then the logic adds a group of states for each of its categories:
//! the `places` of the nodes at which it holds. The definitions that the contracts cite stand in `specs`: what a graph
//! reaches, the order of work, and what a table follows.
#![tactic(auto)]

mod exploration;
mod graph;
mod known;
mod members;
mod minimise;
mod number_set;
mod partition;
mod refinement;
mod table;

pub use exploration::build;
pub use graph::Graph;
pub use members::places;
pub use number_set::NumberSet;
pub use table::Table;
