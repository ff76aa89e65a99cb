//! What the readers of the parts of a specification share.
//!
//! A `Cursor` reads from the front of tokens, one name, word or mark at a time, and `Items` is the list that a reader
//! fills. `fold_many` reads a rule one time after the other. The events that a formula names are looked up here, and
//! asked whether a word of the grammar is their name, and its open parentheses are counted. In `specs` stands what a
//! rule of a grammar reads, in the same words for every reader: what a call answers beside it, and which fault a
//! formula has. The lemmas on rules that read one item after the other are in `proofs`.
#![tactic(auto)]

mod cursor;
mod events;
mod items;
mod names;
mod nesting;
mod repeat;

pub use cursor::{Cursor, range_of};
pub use events::{GrammarWords, check_event_names, letter_of};
pub use items::Items;
pub use names::{add_name, name_of};
pub use nesting::check_nesting;
pub use repeat::{Repeat, fold_many};
