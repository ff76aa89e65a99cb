//! The rules of the grammar: each takes from the front of the tokens that are left what it spells.
ghost use Rattle.jm_reading.specs.Reading.{is_left, name_at};
ghost use Rattle.jm_reading.specs.Taking.{Takes, with_item};
ghost use Rattle.jm_grammar.specs.Rules.{begins_symbol, alternative_at, begins_more_alternative, more_alternative_at, part_at, more_part_at, formula_at};

use crate::formula::Part;
use jm_model::SpecError;
use jm_reading::{Cursor, Items, Repeat, fold_many};
use jm_text::Token;

/// NAME | "epsilon"
struct Symbol;

impl Repeat for Symbol {
    type Accumulator = Items<Token>;

    ghost continues = { begins_symbol };

    ghost more = { λ _. with_item name_at };

    fn is_next(cursor: &Cursor<'_>) -> bool {
        cursor.is_name_at(0)
    }

    fn add(&self, whole: Items<Token>, cursor: &mut Cursor<'_>) -> Result<Items<Token>, SpecError> {
        whole.with(cursor.name()?)
    }
}

/// Symbol { Symbol }
#[tactic(auto, unfolding(crate::specs::Rules::alternative_at))]
fn alternative(cursor: &mut Cursor<'_>) -> Result<Items<Token>, SpecError>
    ensures { Takes cursor.old result cursor.new alternative_at }
{
    let first = Items::new(cursor.alloc).with(cursor.name()?)?;
    fold_many(&Symbol, first, cursor)
}

/// "|" Alternative
struct MoreAlternative;

impl Repeat for MoreAlternative {
    type Accumulator = Items<Items<Token>>;

    ghost continues = { begins_more_alternative };

    ghost more = { λ _. with_item more_alternative_at };

    fn is_next(cursor: &Cursor<'_>) -> bool {
        cursor.is_mark_at(0, b"|")
    }

    fn add(
        &self,
        whole: Items<Items<Token>>,
        cursor: &mut Cursor<'_>,
    ) -> Result<Items<Items<Token>>, SpecError> {
        cursor.mark(b"|")?;
        whole.with(alternative(cursor)?)
    }
}

/// NAME "->" Alternative { "|" Alternative }
#[tactic(auto, unfolding(crate::specs::Rules::part_at, jm_reading::specs::Taking::parted_at))]
fn part(cursor: &mut Cursor<'_>) -> Result<Part, SpecError>
    ensures { Takes cursor.old result cursor.new part_at }
{
    let left = cursor.name()?;
    cursor.mark(b"->")?;
    let first = Items::new(cursor.alloc).with(alternative(cursor)?)?;
    let alternatives = fold_many(&MoreAlternative, first, cursor)?;
    Ok(Part { left, alternatives })
}

/// "," Production, up to the end
struct MorePart;

impl Repeat for MorePart {
    type Accumulator = Items<Part>;

    ghost continues = { is_left };

    ghost more = { λ _. with_item more_part_at };

    fn is_next(cursor: &Cursor<'_>) -> bool {
        cursor.is_left()
    }

    fn add(&self, whole: Items<Part>, cursor: &mut Cursor<'_>) -> Result<Items<Part>, SpecError> {
        cursor.mark(b",")?;
        whole.with(part(cursor)?)
    }
}

/// A whole formula.
#[tactic(auto, unfolding(jm_reading::specs::Taking::parted_at))]
pub fn formula(cursor: &mut Cursor<'_>) -> Result<Items<Part>, SpecError>
    ensures { Takes cursor.old result cursor.new formula_at }
{
    let first = Items::new(cursor.alloc).with(part(cursor)?)?;
    fold_many(&MorePart, first, cursor)
}
