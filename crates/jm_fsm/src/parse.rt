//! The rules of the grammar: each takes from the front of the tokens that are left what it spells.
ghost use Rattle.std.specs.Prelude.{◌≡◌, true, IfOk};
ghost use Rattle.std.specs.List.{list_any};
ghost use Rattle.jm_reading.specs.Answers.{Gives};
ghost use Rattle.jm_reading.specs.Reading.{is_left};
ghost use Rattle.jm_reading.specs.Taking.{Takes, with_item};
ghost use Rattle.jm_fsm.specs.Spelling.{is_state};
ghost use Rattle.jm_fsm.specs.Rules.{transition_at, entry_at, is_inside, declaration_at, more_member_at, begins_more_member, alias_at, part_at, formula_at};

use crate::formula::{Part, TransitionText};
use jm_model::SpecError;
use jm_reading::{Cursor, Items, Repeat, fold_many};
use jm_text::Token;

/// NAME "->" NAME | "default" NAME
#[tactic(auto, unfolding(crate::specs::Rules::fallback_at, crate::specs::Rules::listed_at, crate::specs::Rules::transition_at))]
fn transition(cursor: &mut Cursor<'_>) -> Result<TransitionText, SpecError>
    ensures { Takes cursor.old result cursor.new transition_at }
{
    if cursor.is_word_at(0, b"default") && !cursor.is_mark_at(1, b"->") {
        let word = cursor.word(b"default")?;
        let destination = cursor.name()?;
        return Ok(TransitionText::Fallback { word, destination });
    }
    let event = cursor.name()?;
    cursor.mark(b"->")?;
    let destination = cursor.name()?;
    Ok(TransitionText::On { event, destination })
}

/// Transition [ "," ], up to a `]`
struct Entry;

impl Repeat for Entry {
    type Accumulator = Items<TransitionText>;

    ghost continues = { is_inside };

    ghost more = { λ _. with_item entry_at };

    fn is_next(cursor: &Cursor<'_>) -> bool {
        !cursor.is_mark_at(0, b"]")
    }

    #[tactic(auto, unfolding(crate::specs::Rules::entry_at, crate::specs::Rules::comma_at))]
    fn add(
        &self,
        whole: Items<TransitionText>,
        cursor: &mut Cursor<'_>,
    ) -> Result<Items<TransitionText>, SpecError> {
        let transition = transition(cursor)?;
        if cursor.is_mark_at(0, b",") {
            cursor.mark(b",")?;
        }
        whole.with(transition)
    }
}

/// NAME "[" { Transition [ "," ] } "]"
#[tactic(auto, unfolding(crate::specs::Rules::declaration_at))]
fn declaration(cursor: &mut Cursor<'_>) -> Result<Part, SpecError>
    ensures { Takes cursor.old result cursor.new declaration_at }
{
    let name = cursor.name()?;
    cursor.mark(b"[")?;
    let transitions = fold_many(&Entry, Items::new(cursor.alloc), cursor)?;
    cursor.mark(b"]")?;
    Ok(Part::Declaration { name, transitions })
}

/// "," NAME
struct MoreMember;

impl Repeat for MoreMember {
    type Accumulator = Items<Token>;

    ghost continues = { begins_more_member };

    ghost more = { λ _. with_item more_member_at };

    fn is_next(cursor: &Cursor<'_>) -> bool {
        cursor.is_mark_at(0, b",")
    }

    fn add(&self, whole: Items<Token>, cursor: &mut Cursor<'_>) -> Result<Items<Token>, SpecError> {
        cursor.mark(b",")?;
        whole.with(cursor.name()?)
    }
}

/// "alias" NAME "=" NAME { "," NAME }
#[tactic(auto, unfolding(crate::specs::Rules::alias_at, jm_reading::specs::Taking::parted_at))]
fn alias(cursor: &mut Cursor<'_>) -> Result<Part, SpecError>
    ensures { Takes cursor.old result cursor.new alias_at }
{
    cursor.word(b"alias")?;
    let name = cursor.name()?;
    cursor.mark(b"=")?;
    let first = Items::new(cursor.alloc).with(cursor.name()?)?;
    let members = fold_many(&MoreMember, first, cursor)?;
    Ok(Part::Alias { name, members })
}

/// State | Alias, up to the end
struct OnePart;

impl Repeat for OnePart {
    type Accumulator = Items<Part>;

    ghost continues = { is_left };

    ghost more = { λ _. with_item part_at };

    fn is_next(cursor: &Cursor<'_>) -> bool {
        cursor.is_left()
    }

    #[tactic(auto, unfolding(crate::specs::Rules::part_at))]
    fn add(&self, whole: Items<Part>, cursor: &mut Cursor<'_>) -> Result<Items<Part>, SpecError> {
        if cursor.is_word_at(0, b"alias") && !cursor.is_mark_at(1, b"[") {
            whole.with(alias(cursor)?)
        } else {
            whole.with(declaration(cursor)?)
        }
    }
}

/// A whole formula.
#[tactic(auto, unfolding(crate::specs::Rules::formula_at))]
pub fn formula(cursor: &mut Cursor<'_>) -> Result<Items<Part>, SpecError>
    ensures gives { Gives result (formula_at cursor.old.bytes.now cursor.old.rest.now) }
    ensures state { IfOk result (λ parts. list_any is_state parts ≡ true) }
{
    let parts = fold_many(&OnePart, Items::new(cursor.alloc), cursor)?;
    if has_state(parts.as_slice()) {
        Ok(parts)
    } else {
        Err(cursor.syntax())
    }
}

/// Whether a state is among the parts.
fn has_state(parts: &[Part]) -> bool
    ensures { result ≡ list_any is_state parts.now }
{
    parts.iter().any(|part| part.is_state())
}
