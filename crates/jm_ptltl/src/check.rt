//! What is wrong with a formula, step by step.
ghost use Rattle.jm_ptltl.specs.Lexicon.{is_grammar_word};

use jm_reading::GrammarWords;

/// The words that stand for something else than an event.
pub struct Words;

impl GrammarWords for Words {
    ghost reserved = { is_grammar_word };

    fn is_reserved(name: &str) -> bool {
        name == "not"
            || name == "or"
            || name == "xor"
            || name == "and"
            || name == "S"
            || name == "true"
            || name == "false"
    }
}
