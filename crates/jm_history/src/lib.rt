//! The history of one specification: a list of entries that is extended without taking memory.
#![tactic(auto)]

mod chain;
mod history;
mod lent;
mod node;
mod row;

pub use history::History;
pub use jm_model::Entry;
pub use lent::{Lent, LentEvent, Piece};
pub use node::Node;
