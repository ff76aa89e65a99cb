//! Cases of tests as text: what a program of tests is given and what it has to answer.
//!
//! A case is a line `> VERB WORDS / WORDS`, the lines of its text, and lines that begin with `< `, which say the
//! answer. In a line of the text that begins with `% ` an escape stands for a byte (`\n`, `\t`, `\r`, `\\`, `\xFF`),
//! and `\{COUNT TEXT}` for so many of a text, in which `#` is the number of the repetition, from 0. Lines that begin
//! with `--` are comments.
#![tactic(auto)]

mod case;
mod expand;
mod program;
mod words;

pub use case::{Case, cases};
pub use program::run;
pub use words::{
    byte_of, number_of, numbers_of, put, put_line, put_number, put_word, small_number_of,
    small_numbers_of, text_of,
};
