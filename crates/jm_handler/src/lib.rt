//! What a handler prints: which statements of its block print, and the text of each when the handler runs.
//!
//! A block is any text in balanced brackets. Its statements of the form `System.out.println(..);` or
//! `System.err.println(..);` over texts, parameters and the place are kept; all others print nothing, and no text is
//! refused. The word `__RESET` in any of them resets the property, of which nothing is known here. What a block says is
//! a relation over its tokens (`specs/Blocks.antt`), apart from the reader, and what is printed stands in
//! `specs/Renderings.antt`. Both calls are linear in what they read or write.
#![tactic(auto)]

mod handler;
mod laws;
mod page;
mod quoted;
mod reader;
mod render;
mod statement;
mod term;

pub use handler::Handler;
pub use laws::one_reading;
pub use reader::read_handler;
pub use term::{Term, Text};
