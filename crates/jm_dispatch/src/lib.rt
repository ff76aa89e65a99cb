//! One specification's dispatcher: a turn lock round its core.
//!
//! Any number of callers make steps on one specification, each on a seat of its own. A step's entry is made in the
//! caller's turn, so that all steps stand in one history, and that history is legal. A seat knows a part of it from the
//! beginning on, with all entries of its own.
//!
//! | Module | What it has |
//! |---|---|
//! | `watched` | the core as a value under the lock |
//! | `acts` | what is done to it in a turn: an event, a death, a pass |
//! | `watch` | the dispatcher and its calls |
#![tactic(auto)]

mod acts;
mod watch;
mod watched;

pub use acts::Answer;
pub use watch::{Note, Seat, Watch};
pub use watched::{Fixed, Watched};
