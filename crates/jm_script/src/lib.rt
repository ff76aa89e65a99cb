//! Scripts: the steps that a caller of the runtime makes, one a line.
//!
//! `read_script` reads a script over a `Catalog` of specifications, and numbers its objects; `project` gives the steps
//! that are for one specification. `read_compact` reads it with lines that take less memory, as commands do: a
//! `CompactScript` gives its lines by their places, and its steps at once or block by block. A `LineQueue` gives its
//! lines one by one, and lets go what it has given.
#![tactic(auto)]

mod action;
mod block;
mod catalog;
mod compact;
mod event;
mod known;
mod laws;
mod line;
mod objects;
mod queue;
mod reader;
mod script;
mod statement;

pub use block::Block;
pub use catalog::Catalog;
pub use compact::CompactScript;
pub use laws::one_reading;
pub use queue::LineQueue;
pub use reader::{read_compact, read_script};
pub use script::{Script, ScriptLine, Target, project};
