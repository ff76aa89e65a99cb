//! The top call: a command from the words of its command line to its status.
//!
//! `jmop` reads the words, loads the files from a folder, does the command, and writes its text to a sink and what went
//! wrong to another. It knows `replay`, `run`, `check`, `coenable`, `gen`, `sweep` and `audit`, over all four logics
//! and over scripts of events, deaths and passes.
//!
//! What a command is to do stands in `specs`, apart from how it is done: what its words and the contents of its files
//! ask for or which fault is the first is said by `jm_inputs`, and which texts are those of a command by `Texts.antt`
//! and `Histories.antt`.
//!
//! | Module | What it has |
//! |---|---|
//! | `command` | the call, from the words to the status |
//! | `job` | the text of each command |
//! | `replay`, `run` | the histories of scripts |
//! | `sweep` | the histories of a recording's parts |
//! | `audit` | the verdict on a history |
//! | `histories`, `blocks`, `texts` | what is printed |
#![tactic(auto)]

mod audit;
mod blocks;
mod command;
mod histories;
mod job;
mod replay;
mod run;
mod sweep;
mod texts;

pub use command::jmop;
pub use jm_inputs::Status;
pub use texts::fault_text;
