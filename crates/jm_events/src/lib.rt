//! The names that a specification declares: its parameters and its events, each by its number. A parameter's
//! number is its place in the head; an event's number, its letter, is the place of its first mention.
#![tactic(auto)]

mod chains;
mod hash;
mod names;
mod table;

pub use names::Names;
pub use table::EventTable;
