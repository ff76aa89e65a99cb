//! What the printed text of a command tells of its histories, for all words and files.
//!
//! Nothing is asked of names here: those that an accepted command reads hold no byte that parts the pieces of a printed
//! line, and no two of one kind are the same in one text. A legal history is told by its text also by itself, whatever
//! scripts it is of. And a file has one first fault and a command one job, but for the line of `Syntax`; one that is
//! refused ends with that refusal. Of a specification's bytes it is told how the tokens cut them: what a token covers,
//! how far a word and a text go, which mark a mark is, and when a text or a comment isn't closed.
#![tactic(auto)]

mod laws;

pub use laws::{
    inputs_have_names, legal_histories_are_told, marks_are_longest, one_job, one_refusal,
    one_script_fault, one_spec_fault, open_is_unclosed, parts_are_scripts, text_tells_histories,
    texts_are_quoted, tokens_tile, what_run_wrote_is_answered_yes, words_are_maximal,
};
