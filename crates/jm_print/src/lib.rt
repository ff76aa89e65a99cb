//! The printed texts: a history with each of its answers, a summary of it, and what a specification declares and needs.
//!
//! `render_history` writes a line for each entry and for each handler that ran, `render_entry` those of one entry,
//! `render_summary` one line of counts, `render_check` what a specification declares, and `render_coenable` its
//! coenable sets. Each is linear in the text that it writes. What the texts are stands in `specs`.
#![tactic(auto)]

mod check;
mod coenable;
mod head;
mod history;
mod laws;
mod lists;
mod page;
mod place;
mod short;
mod summary;

pub use check::render_check;
pub use coenable::render_coenable;
pub use history::{render_entry, render_history};
pub use laws::{marked_lines_can_be_dropped, text_determines_history, texts_split_in_one_way};
pub use summary::render_summary;
