//! What cases of formulas and of their texts have in common: the tokens of a text, tables of events, and which
//! categories of a table hold of the words of a case.
#![tactic(auto)]

mod categories;
mod events;
mod tokens;

pub use categories::{is_in, names_text, next, states_text, words_text};
pub use events::{events_of, put_events, put_params, table_of};
pub use tokens::{or_fault, said, tokens_of};
