//! What a line means.
ghost use Rattle.std.specs.Prelude.{◌≡◌, ◌≤◌, ℕ, List, length, map, IfOk, IfSome};
ghost use Rattle.jm_lines.specs.Lines.{words_of};
ghost use Rattle.jm_script.specs.Meanings.{line_meaning};
ghost use Rattle.jm_script.specs.Objects.{most_objects};
ghost use Rattle.jm_script.specs.Answers.{IsReadAs};
ghost use Rattle.jm_script.specs.Fitting.{FitsTarget};
ghost use Rattle.jm_script.specs.Blocks.{target_of, targets_of};
ghost use Rattle.jm_script.specs.Known.{AreSound};

use crate::action::Action;
use crate::known::Scratch;
use crate::statement::{Reader, death_line, event_line, pass_line};
use jm_events::Names;
use jm_lines::is_word;
use jm_model::ScriptError;

/// What a line of these words does, if it is a step. The numbers of its objects are written.
pub fn read_line<'a>(
    reader: &Reader<'_>,
    words: &[&'a [u8]],
    names: &mut Names,
    scratch: &mut Scratch<'a>,
) -> Result<Option<Action>, ScriptError>
    requires bounded { length names.old ≤ most_objects }
    requires known { AreSound reader.now.catalog.now scratch.old.known.slots }
    ensures known { AreSound reader.now.catalog.now scratch.new.known.slots }
    ensures fits { IfOk result (λ action. IfSome action
        (λ a. FitsTarget reader.now.catalog.now (length names.new) (target_of scratch.new.numbers a))) }
    ensures read { (line : List ℕ) → map (λ w. w.now) words.now ≡ words_of line →
        IsReadAs (line_meaning reader.now.catalog.now reader.now.position.count reader.now.position.line line names.old)
        names.old (targets_of scratch.new.numbers result) names.new }
{
    let [word, rest @ ..] = words else {
        return Ok(None);
    };
    if is_word(word, b"death") {
        death_line(
            reader.alloc,
            reader.position,
            rest,
            names,
            &mut scratch.numbers,
        )
    } else if is_word(word, b"pass") {
        pass_line(reader.catalog, reader.position, rest)
    } else {
        event_line(reader, word, rest, names, scratch)
    }
}
