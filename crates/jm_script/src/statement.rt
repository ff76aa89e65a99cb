//! The three shapes of a line: an event with its objects, a death and a disposal pass.
ghost use Rattle.std.specs.Prelude.{◌≡◌, ◌<◌, ◌≤◌, ◌==◌, ◌&&◌, ℕ, ◌+◌, List, drop, length, map, take, nat_le, IsTrue, OnOk, IfOk, IfErr, IfSome};
ghost use Rattle.std.specs.List.{list_all};
ghost use Rattle.jm_text.specs.Texts.{is_name_text};
ghost use Rattle.jm_script.specs.declared.script.Target.{Target};
ghost use Rattle.jm_script.specs.Statements.{event_statement, death_statement, pass_statement};
ghost use Rattle.jm_lines.specs.Objects.{is_object};
ghost use Rattle.jm_script.specs.Catalogs.{CatalogEntry};
ghost use Rattle.jm_script.specs.Objects.{most_objects, mentioned, numbers_of};
ghost use Rattle.jm_script.specs.Meanings.{most_steps, mentioning, statement_meaning};
ghost use Rattle.jm_script.specs.Answers.{IsStoppedBy, IsReadAs};
ghost use Rattle.jm_script.specs.Fitting.{FitsTarget};
ghost use Rattle.jm_script.specs.Blocks.{target_of, targets_of};
ghost use Rattle.jm_script.specs.Known.{AreSound, FindsEvent};

use crate::action::Action;
use crate::catalog::Catalog;
use crate::event::{NamedEvent, named_event};
use crate::known::{KnownWord, KnownWords, Scratch};
use crate::objects::{are_few, are_objects, have_room, known_numbers, mention};
use jm_events::Names;
use jm_lines::{position_of, text};
use jm_model::{ScriptError, ScriptFault};
use jm_text::is_name_text;
use std::alloc::Global;

/// How many steps the scripts of a run have together at most.
pub const MOST_STEPS: u32 = 200_000;

/// Where a line stands: its number, and how many steps stand before it in all scripts.
#[derive(Clone, Copy)]
pub struct Position {
    pub line: u32,
    pub count: u32,
}

impl Position {
    /// Whether one step more would be too many.
    fn is_full(self) -> bool
        ensures { result ≡ nat_le most_steps self.count }
    {
        self.count >= MOST_STEPS
    }

    fn bad_line(self) -> ScriptError
        ensures { result ≡ ScriptError.Bad (ScriptFault.BadLine self.line) }
    {
        ScriptError::Bad(ScriptFault::BadLine { line: self.line })
    }

    fn too_many_lines(self) -> ScriptError
        ensures { result ≡ ScriptError.Bad (ScriptFault.TooManyLines self.line) }
    {
        ScriptError::Bad(ScriptFault::TooManyLines { line: self.line })
    }
}

/// What a line is read over: the specifications, and where it stands.
#[derive(Clone, Copy)]
pub struct Reader<'c> {
    pub alloc: Global,
    pub catalog: &'c Catalog,
    pub position: Position,
}

/// A line `SPEC.EVENT OBJECT..`, by its first word and its objects. The word is known then, and the numbers of the
/// objects are written.
pub fn event_line<'a>(
    reader: &Reader<'_>,
    word: &'a [u8],
    objects: &[&[u8]],
    names: &mut Names,
    scratch: &mut Scratch<'a>,
) -> Result<Option<Action>, ScriptError>
    requires bounded { length names.old ≤ most_objects }
    requires known { AreSound reader.now.catalog.now scratch.old.known.slots }
    ensures known { AreSound reader.now.catalog.now scratch.new.known.slots }
    ensures fits { IfOk result (λ action. IfSome action
        (λ a. FitsTarget reader.now.catalog.now (length names.new) (target_of scratch.new.numbers a))) }
    ensures read { IsReadAs (statement_meaning
        reader.now.catalog.now reader.now.position.count reader.now.position.line names.old
        (event_statement word.now (map (λ w. w.now) objects.now))) names.old
        (targets_of scratch.new.numbers result) names.new }
{
    let event = event_of(
        reader.catalog,
        reader.position,
        word,
        objects,
        &mut scratch.known,
    )?;
    number_all(
        reader.alloc,
        reader.position,
        objects,
        names,
        &mut scratch.numbers,
    )?;
    Ok(Some(Action::Event { event }))
}

/// The event of a line, if it has one more step; it is looked up where the word isn't known.
fn event_of<'a>(
    catalog: &Catalog,
    position: Position,
    word: &'a [u8],
    objects: &[&[u8]],
    known: &mut KnownWords<'a>,
) -> Result<NamedEvent, ScriptError>
    requires { AreSound catalog.now known.old.slots }
    ensures known { AreSound catalog.now known.new.slots }
    ensures finds { FindsEvent catalog.now position.count position.line word.now
        (map (λ w. w.now) objects.now) (length objects.now) result }
{
    if let Some(event) = known.find(word, objects.len()) {
        if are_objects(objects) && !position.is_full() {
            return Ok(event);
        }
    }
    let event = new_event(catalog, position, word, objects)?;
    known.keep(KnownWord {
        word,
        count: objects.len(),
        event,
    });
    Ok(event)
}

/// The event that words name, by looking it up in the catalog.
fn new_event(
    catalog: &Catalog,
    position: Position,
    word: &[u8],
    objects: &[&[u8]],
) -> Result<NamedEvent, ScriptError>
    ensures { FindsEvent catalog.now position.count position.line word.now
        (map (λ w. w.now) objects.now) (length objects.now) result }
{
    let dot = position_of(word, b'.');
    let spec = &word[..dot];
    let event = behind(word, dot);
    if !is_event_line(spec, event, objects) {
        return Err(position.bad_line());
    }
    if position.is_full() {
        return Err(position.too_many_lines());
    }
    match named_event(catalog, position.line, spec, event, objects.len()) {
        Ok(event) => Ok(event),
        Err(fault) => Err(ScriptError::Bad(fault)),
    }
}

/// What stands after a place of a word, if anything does.
fn behind(word: &[u8], position: usize) -> &[u8]
    requires { position ≤ length word.now }
    ensures { result.now ≡ drop (position + 1) word.now }
{
    if position == word.len() {
        return &[];
    }
    &word[position + 1..]
}

fn is_event_line(spec: &[u8], event: &[u8], objects: &[&[u8]]) -> bool
    ensures { result ≡ (is_name_text spec.now && is_name_text event.now
        && list_all is_object (map (λ w. w.now) objects.now)) }
{
    is_name_text(spec) && is_name_text(event) && are_objects(objects)
}

/// Writes the numbers of the objects that a line mentions.
#[inline(always)]
fn number_all(
    alloc: Global,
    position: Position,
    objects: &[&[u8]],
    names: &mut Names,
    numbers: &mut [u32; 8],
) -> Result<(), ScriptError>
    requires objects { IsTrue (list_all is_object (map (λ w. w.now) objects.now)) }
    requires bounded { length objects.now ≤ 8 }
    requires room { length names.old ≤ most_objects }
    ensures room { OnOk result (length (mentioned names.old (map (λ w. w.now) objects.now)) ≤ most_objects) }
    ensures ok { OnOk result (names.new ≡ mentioned names.old (map (λ w. w.now) objects.now)) }
    ensures numbers { OnOk result (take (length objects.now) numbers.new
        ≡ numbers_of names.old (map (λ w. w.now) objects.now)) }
    ensures err { (target_of : List ℕ → Target)
        → IfErr result (λ error. IsStoppedBy
        (mentioning position.line names.old (map (λ w. w.now) objects.now) target_of) names.old error names.new) }
{
    if !are_few(objects, names) {
        if known_numbers(objects, names, numbers).is_some() {
            return Ok(());
        }
    }
    let room = have_room(alloc, objects, names)?;
    if !room {
        let line = position.line;
        return Err(ScriptError::Bad(ScriptFault::TooManyObjects { line }));
    }
    mention(objects, names, numbers)?;
    Ok(())
}

/// A line `death OBJECT`, by the words after the first. The number of the object may be written.
pub fn death_line(
    alloc: Global,
    position: Position,
    words: &[&[u8]],
    names: &mut Names,
    numbers: &mut [u32; 8],
) -> Result<Option<Action>, ScriptError>
    requires { length names.old ≤ most_objects }
    ensures fits { (catalog : List CatalogEntry) → IfOk result (λ action. IfSome action
        (λ a. FitsTarget catalog (length names.new) (target_of numbers.new a))) }
    ensures read { (catalog : List CatalogEntry)
        → IsReadAs (statement_meaning catalog position.count position.line names.old
        (death_statement (map (λ w. w.now) words.now))) names.old (targets_of numbers.new result) names.new }
{
    if !is_one_object(words) {
        return Err(position.bad_line());
    }
    if position.is_full() {
        return Err(position.too_many_lines());
    }
    number_all(alloc, position, words, names, numbers)?;
    Ok(Some(Action::Death { object: numbers[0] }))
}

fn is_one_object(words: &[&[u8]]) -> bool
    ensures { result ≡ (length words.now == 1 && list_all is_object (map (λ w. w.now) words.now)) }
{
    words.len() == 1 && are_objects(words)
}

/// A line `pass SPEC`, by the words after the first.
pub fn pass_line(
    catalog: &Catalog,
    position: Position,
    words: &[&[u8]],
) -> Result<Option<Action>, ScriptError>
    ensures fits { (names : ℕ) (numbers : List ℕ) → IfOk result (λ action. IfSome action
        (λ a. FitsTarget catalog.now names (target_of numbers a))) }
    ensures read { (names : List (List ℕ)) (numbers : List ℕ)
        → IsReadAs (statement_meaning catalog.now position.count position.line names
        (pass_statement (map (λ w. w.now) words.now))) names (targets_of numbers result) names }
{
    let [spec] = words else {
        return Err(position.bad_line());
    };
    if !is_name_text(spec) {
        return Err(position.bad_line());
    }
    if position.is_full() {
        return Err(position.too_many_lines());
    }
    match catalog.find(text(spec)) {
        Some(spec) => Ok(Some(Action::Pass { spec })),
        None => {
            let line = position.line;
            Err(ScriptError::Bad(ScriptFault::UnknownSpec { line }))
        }
    }
}
