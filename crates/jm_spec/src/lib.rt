//! The frame of a `.mop` file: its modifiers, its name and parameters, its events, its property and the handlers.
//!
//! `read_spec` reads a file's tokens by the frame's grammar and refuses what is wrong with it, first the grammar and
//! then one fault after the other. The formula and the inside of a handler are left as ranges of tokens.
#![tactic(auto)]

mod brackets;
mod events;
mod frame;
mod head;
mod laws;
mod property;
mod reader;
mod runs;
mod spec;
mod tree;

pub use laws::{member_ends, one_reading};
pub use property::HandlerText;
pub use spec::read_spec;
pub use tree::{Logic, PropertyTree, SpecTree};
