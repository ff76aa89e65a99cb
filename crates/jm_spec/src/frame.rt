//! The frame of a file: what its tokens say, before anything but the grammar is asked.
ghost use Rattle.jm_reading.specs.Answers.{Gives};
ghost use Rattle.jm_spec.specs.Rules.{frame_at};

use crate::events::{Member, Mention};
use crate::head::{Clause, Modifier, OneModifier, list};
use crate::property::{OneProperty, Property};
use jm_model::SpecError;
use jm_reading::{Cursor, Items, fold_many};
use jm_text::Token;

/// What the tokens of a file say.
#[derive(Drop)]
pub struct Frame {
    pub modifiers: Items<Modifier>,
    pub name: Token,
    pub params: Items<Token>,
    pub events: Items<Mention>,
    pub properties: Items<Property>,
}

/// A whole file: its clauses, its head and its body, and nothing after it.
#[tactic(auto, unfolding(crate::specs::Rules::frame_at))]
pub fn file(total: u32, cursor: &mut Cursor<'_>) -> Result<Frame, SpecError>
    ensures { Gives result (frame_at total cursor.old.bytes.now cursor.old.rest.now) }
{
    fold_many(&Clause, (), cursor)?;
    let modifiers = fold_many(&OneModifier, Items::new(cursor.alloc), cursor)?;
    let name = cursor.name()?;
    let params = list(Items::new(cursor.alloc), cursor)?;
    cursor.mark(b"{")?;
    let events = fold_many(&Member, Items::new(cursor.alloc), cursor)?;
    let properties = fold_many(&OneProperty { total }, Items::new(cursor.alloc), cursor)?;
    cursor.mark(b"}")?;
    if cursor.is_left() {
        return Err(cursor.syntax());
    }
    Ok(Frame {
        modifiers,
        name,
        params,
        events,
        properties,
    })
}
