//! The members of a body before its properties: declarations and events.
ghost use Rattle.std.specs.Prelude.{◌≡◌};
ghost use Rattle.jm_reading.specs.Answers.{Leaves};
ghost use Rattle.jm_reading.specs.Taking.{Takes};
ghost use Rattle.jm_spec.specs.Rules.{begins_event, begins_member, member_at, run_at, creation_at, event_at, advice_at, before_at, after_at, pointcut_at, outcome_at, optional_list_at, other_at};

use crate::head::list;
use crate::reader::any_word;
use crate::runs;
use jm_model::SpecError;
use jm_reading::{Cursor, Items, Repeat};
use jm_text::{Token, is_mark};

/// What an event is advised by.
#[derive(Drop)]
pub enum Advice {
    /// `before` or `after`, with the names in its lists of parameters.
    Known(Items<Token>),
    /// Another advice, which begins on the line.
    Other(u32),
}

/// A mention of an event.
#[derive(Drop)]
pub struct Mention {
    pub creation: bool,
    pub name: Token,
    pub advice: Advice,
}

/// An event, which is kept, or a declaration, up to the first property or the end of the body
pub struct Member;

impl Repeat for Member {
    type Accumulator = Items<Mention>;

    ghost continues = { begins_member };

    ghost more = { λ rule. member_at };

    fn is_next(cursor: &Cursor<'_>) -> bool {
        !(cursor.is_mark_at(0, b"}") || runs::begins_property(cursor.bytes, cursor.rest))
    }

    #[tactic(auto, unfolding(crate::specs::Rules::member_at))]
    fn add(
        &self,
        whole: Items<Mention>,
        cursor: &mut Cursor<'_>,
    ) -> Result<Items<Mention>, SpecError> {
        if begins_event(cursor) {
            event(whole, cursor)
        } else {
            run(cursor)?;
            Ok(whole)
        }
    }
}

fn begins_event(cursor: &Cursor<'_>) -> bool
    ensures { result ≡ begins_event cursor.now.bytes.now cursor.now.rest.now }
{
    (cursor.is_word_at(0, b"event") && cursor.is_name_at(1))
        || (cursor.is_word_at(0, b"creation")
            && cursor.is_word_at(1, b"event")
            && cursor.is_name_at(2))
}

/// The tokens up to and with the first `;` or the first block outside brackets: a declaration, or the rest of an event.
#[tactic(auto, unfolding(crate::specs::Rules::run_at))]
pub fn run(cursor: &mut Cursor<'_>) -> Result<(), SpecError>
    ensures reads { Leaves result cursor.new.rest.now (run_at cursor.old.bytes.now cursor.old.rest.now) }
    ensures bytes { cursor.new.bytes.now ≡ cursor.old.bytes.now }
{
    let n = runs::member_length(cursor)?;
    cursor.advance(n);
    Ok(())
}

/// [ "creation" ] "event" NAME Advice, which is added to these
#[tactic(auto, unfolding(crate::specs::Rules::event_at))]
fn event(events: Items<Mention>, cursor: &mut Cursor<'_>) -> Result<Items<Mention>, SpecError>
    ensures { Takes cursor.old result cursor.new (event_at events) }
{
    let mut events = events;
    let creation = creation(cursor)?;
    any_word(cursor)?;
    let name = cursor.name()?;
    let advice = advised(cursor)?;
    events.push(Mention {
        creation,
        name,
        advice,
    })?;
    Ok(events)
}

/// Whether the word is there.
#[tactic(auto, unfolding(crate::specs::Rules::creation_at))]
fn creation(cursor: &mut Cursor<'_>) -> Result<bool, SpecError>
    ensures { Takes cursor.old result cursor.new creation_at }
{
    if !cursor.is_word_at(0, b"creation") {
        return Ok(false);
    }
    any_word(cursor)?;
    Ok(true)
}

#[tactic(auto, unfolding(crate::specs::Rules::advice_at))]
fn advised(cursor: &mut Cursor<'_>) -> Result<Advice, SpecError>
    ensures { Takes cursor.old result cursor.new advice_at }
{
    if cursor.is_word_at(0, b"before") {
        before(cursor)
    } else if cursor.is_word_at(0, b"after") {
        after(cursor)
    } else {
        other(cursor)
    }
}

/// "before" List ":" Pointcut End
#[tactic(auto, unfolding(crate::specs::Rules::before_at))]
fn before(cursor: &mut Cursor<'_>) -> Result<Advice, SpecError>
    ensures { Takes cursor.old result cursor.new before_at }
{
    any_word(cursor)?;
    let names = list(Items::new(cursor.alloc), cursor)?;
    pointcut(cursor)?;
    Ok(Advice::Known(names))
}

/// "after" List [ "returning" [ List ] ] [ "throwing" [ List ] ] ":" Pointcut End
#[tactic(auto, unfolding(crate::specs::Rules::after_at))]
fn after(cursor: &mut Cursor<'_>) -> Result<Advice, SpecError>
    ensures { Takes cursor.old result cursor.new after_at }
{
    any_word(cursor)?;
    let names = list(Items::new(cursor.alloc), cursor)?;
    let returned = outcome(b"returning", names, cursor)?;
    let thrown = outcome(b"throwing", returned, cursor)?;
    pointcut(cursor)?;
    Ok(Advice::Known(thrown))
}

#[tactic(auto, unfolding(crate::specs::Rules::pointcut_at))]
fn pointcut(cursor: &mut Cursor<'_>) -> Result<(), SpecError>
    ensures reads { Leaves result cursor.new.rest.now (pointcut_at cursor.old.bytes.now cursor.old.rest.now) }
    ensures bytes { cursor.new.bytes.now ≡ cursor.old.bytes.now }
{
    cursor.mark(b":")?;
    run(cursor)
}

/// The word and its list, which may both be missing.
#[tactic(auto, unfolding(crate::specs::Rules::outcome_at))]
fn outcome(
    word: &[u8],
    names: Items<Token>,
    cursor: &mut Cursor<'_>,
) -> Result<Items<Token>, SpecError>
    ensures { Takes cursor.old result cursor.new (outcome_at word.now names) }
{
    if !cursor.is_word_at(0, word) {
        return Ok(names);
    }
    any_word(cursor)?;
    optional_list(names, cursor)
}

#[tactic(auto, unfolding(crate::specs::Rules::optional_list_at))]
fn optional_list(names: Items<Token>, cursor: &mut Cursor<'_>) -> Result<Items<Token>, SpecError>
    ensures { Takes cursor.old result cursor.new (optional_list_at names) }
{
    if !cursor.is_mark_at(0, b"(") {
        return Ok(names);
    }
    list(names, cursor)
}

/// An advice that isn't empty and begins otherwise.
#[tactic(auto, unfolding(crate::specs::Rules::other_at))]
fn other(cursor: &mut Cursor<'_>) -> Result<Advice, SpecError>
    ensures { Takes cursor.old result cursor.new other_at }
{
    let [first, ..] = cursor.rest else {
        return Err(cursor.syntax());
    };
    let line = first.line;
    if is_mark(cursor.bytes, *first, b";") || is_mark(cursor.bytes, *first, b"{") {
        return Err(cursor.syntax());
    }
    run(cursor)?;
    Ok(Advice::Other(line))
}
