//! What becomes of a property whose rule may begin anywhere: a category `match` then asks whether some suffix of a
//! word, not the empty one, is in the language as it is written.
//!
//! `suffix_ere` and `suffix_grammar` make the expression and the grammar of the words that end in such a word. Both are
//! made once, when a rule is compiled.
#![tactic(auto)]

mod ere;
mod forms;
mod grammar;

pub use ere::suffix_ere;
pub use grammar::suffix_grammar;
