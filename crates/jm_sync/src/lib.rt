//! Order that scripts ask for: a script posts names, and waits for names that others post.
//!
//! `cut` takes the lines that ask for order out of a script, and `check` tells whether scripts can be run in that
//! order. A `Board` is where callers on many threads post items under names, and wait for what others post.
#![tactic(auto)]

mod board;
mod checking;
mod cutting;
mod error;
mod line;
mod numbers;
mod reach;
mod shelves;

pub use board::Board;
pub use checking::check;
pub use cutting::cut;
pub use error::SyncError;
pub use line::{Cut, SyncKind, SyncLine};
pub use shelves::{GaveUp, Posted};
