//! Charts of a grammar, for words that grow letter by letter.
//!
//! A chart has the items of Earley's method (Earley 1970) for each place of a word. What an item is stands in `specs`,
//! apart from how items are found: the front of its production spells what lies between its origin and its place, and
//! from the start its left side is awaited at its origin. Nonterminals that spell the empty word are advanced over
//! where they are predicted, in the manner of Aycock and Horspool (2002). A chart keeps the last place, and the places
//! where items of the kept places began: what a parser with a stack would keep.
#![tactic(auto)]

mod await_index;
mod chart;
mod continuation;
mod dead;
mod earley_set;
mod growth;
mod item;
mod letter_set;
mod link;
mod rule;
mod set;
mod shared;

pub use chart::{Chart, Charts};
