//! Context-free grammars, one of the four logics.
//!
//! `read` reads a grammar, a `Grammar`, from the tokens of a formula: a list of productions and a start.
//! `Grammar::reduce` drops what spells no word, and `Grammar::productive` says which nonterminals spell a word of some
//! letters. What the tokens spell and what a grammar means stands in `specs`, apart from the reader, any chart and any
//! fixed point: the form of a formula as a relation, and a word is in the language where the leaves of a derivation
//! tree of the start spell it. The fixed point over the productions is the usual one for nonterminals that derive a
//! word (Hopcroft and Ullman 1979).
#![tactic(auto)]

mod check;
mod formula;
mod grammar;
mod laws;
mod parse;
mod productive;
mod reads;
mod reduce;
mod resolve;

pub use grammar::{Grammar, GrammarSymbol, Production};
pub use laws::{letters_are_events, nonterminals_are_few, one_reading, productions_as_written};
pub use reads::read;
