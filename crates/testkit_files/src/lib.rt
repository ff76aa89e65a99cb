//! Files as the text of a case holds them, and what of their folders and sinks fails.
#![tactic(auto)]

mod calls;
mod contents;

pub use calls::{calls_of, sink_of};
pub use contents::{File, files};
