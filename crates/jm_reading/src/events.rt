//! The events of a specification and its formula.
ghost use Rattle.std.specs.Prelude.{◌≡◌, ◌≤◌, length};
ghost use Rattle.jm_events.specs.Events.{event_names};
ghost use Rattle.jm_reading.specs.Events.{letter_said, reserved_event_fault};
ghost use Rattle.jm_reading.specs.Faults.{Answers, Checks};

use crate::names::name_of;
use jm_events::EventTable;
use jm_model::{Letter, SpecError, SpecFault};
use jm_text::Token;

/// The words that a grammar keeps for itself.
pub trait GrammarWords {
    ghost use Rattle.std.specs.Prelude.{Bool};
    ghost use Rattle.jm_model.specs.Words.{Text};

    ghost reserved: { Text → Bool };

    /// Whether a name is one of these words.
    fn is_reserved(name: &str) -> bool
        ensures { result ≡ reserved name.now };
}

/// No event is named by a word of the grammar.
pub fn check_event_names<W: GrammarWords>(table: &EventTable) -> Result<(), SpecError>
    ensures checked { Checks result (reserved_event_fault W.reserved table.now.events) }
    ensures bounded { length table.now.events ≤ 32 }
{
    for letter in 0..table.letters() {
        let letter = Letter(letter);
        if W::is_reserved(table.event_name(letter)) {
            let line = table.event_line(letter);
            return Err(SpecFault::ReservedName { line }.into());
        }
    }
    Ok(())
}

/// The letter of the event that a token names.
pub fn letter_of(bytes: &[u8], table: &EventTable, token: Token) -> Result<Letter, SpecError>
    ensures { Answers result (letter_said bytes.now (event_names table.now) token) }
{
    match table.letter(name_of(bytes, token)) {
        Some(letter) => Ok(letter),
        None => Err(SpecFault::UnknownName { line: token.line }.into()),
    }
}
