//! What holds of all words.
ghost use Rattle.std.specs.Prelude.{◌≡◌, ℕ, List, Some};
ghost use Rattle.jm_cli.specs.Words.{CommandWords, command_of};
ghost use Rattle.jm_cli.specs.Spelling.{Spells};

/// Words spell a command exactly where the table of commands has them, with its names or its number. So they spell one
/// at most.
pub fn words_spell_what_the_table_says()
    ensures said { (words : List (List ℕ)) (c : CommandWords) → command_of words ≡ Some c → Spells words c }
    ensures read { (words : List (List ℕ)) (c : CommandWords) → Spells words c → command_of words ≡ Some c }
{}
