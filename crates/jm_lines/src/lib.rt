//! The lines of a script, and the words of a line.
//!
//! `first_words` reads the words of a text's first line, and `behind_line` gives what stands after it. The calls beside
//! them say what a word is.
#![tactic(auto)]

mod words;

pub use words::{behind_line, first_words, is_object, is_word, position_of, text};
