//! Lists of the monitors that an event may change, so that the event needn't read the others.
//!
//! A list is kept for a letter and a binding. It may have more slots than are needed, and a list may be let go at any
//! time, so that no call fails since it is out of memory for one. A slot has a card: it says in the lists of which
//! letters the slot is, and how often it was left, so that what was listed of a monitor that is gone counts for
//! nothing.
#![tactic(auto)]

mod awake;
mod card;
mod list;
mod path;

pub use awake::Awake;
pub use card::{Card, Listed};
