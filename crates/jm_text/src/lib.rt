//! The tokens of a `.mop` file.
//!
//! `tokens` cuts the bytes of a specification into words, texts and marks, each with the span of its
//! bytes and its line. The calls beside it say what a token of some bytes is, for the readers of a
//! specification.
#![tactic(auto)]

mod laws;
mod lexer;
mod piece;
mod texts;
mod token;

pub use laws::one_reading;
pub use lexer::tokens;
pub use texts::{is_mark, is_name, is_name_text, is_word, name, text};
pub use token::{Token, TokenKind};
