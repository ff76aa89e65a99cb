//! The words of a command line, and the command that they spell.
//!
//! `read_words` takes the words without the program's name. It refuses words that begin with `-`, but for the separator
//! of `run` and `audit`, at which it cuts; what is left `clap` reads. Then it copies the names that the command is
//! given.
#![tactic(auto)]

mod command;
mod laws;
mod line;
mod words;

pub use command::{Command, WordsError, read_words};
pub use laws::words_spell_what_the_table_says;
