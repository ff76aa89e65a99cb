//! What a property needs to be hit again: which parameters the words have that lead from a state of its table to a
//! handled one. An instance whose dead parameters meet each of these words can never fire again.
//!
//! The definitions that the contracts cite stand in `specs`, as relations over words.
#![tactic(auto)]

mod arrivals;
mod mask_set;
mod needed;
mod needs;
mod property;
mod searches;
mod sets;
mod start;

pub use needs::Needs;
pub use property::step;
