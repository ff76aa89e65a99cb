//! The properties of a body, with their handlers.
ghost use Rattle.jm_reading.specs.Taking.{Takes};
ghost use Rattle.jm_spec.specs.Rules.{block_at, begins_handler, handler_at, goes_on, property_at};

use crate::events::run;
use crate::reader::place;
use crate::runs;
use jm_model::SpecError;
use jm_reading::{Cursor, Items, Repeat, fold_many};
use jm_text::Token;

/// A handler: its category, and the range of the tokens inside its block.
#[derive(Clone, Copy, Debug, PartialEq, Eq)]
pub struct HandlerText {
    pub category: Token,
    pub first: u32,
    pub last: u32,
}

/// A property: the word of its logic, the range of the tokens of its formula, and its handlers.
#[derive(Drop)]
pub struct Property {
    pub logic: Token,
    pub first: u32,
    pub last: u32,
    pub handlers: Items<HandlerText>,
}

/// NAME ":" Formula, and its handlers, up to the end of the body
#[derive(Clone, Copy)]
pub struct OneProperty {
    pub total: u32,
}

impl Repeat for OneProperty {
    type Accumulator = Items<Property>;

    ghost continues = { goes_on };

    ghost more = { λ rule. property_at rule.total };

    fn is_next(cursor: &Cursor<'_>) -> bool {
        !cursor.is_mark_at(0, b"}")
    }

    #[tactic(auto, unfolding(crate::specs::Rules::property_at))]
    fn add(
        &self,
        whole: Items<Property>,
        cursor: &mut Cursor<'_>,
    ) -> Result<Items<Property>, SpecError> {
        let mut properties = whole;
        let logic = cursor.name()?;
        cursor.mark(b":")?;
        let first = place(self.total, cursor);
        let n = runs::formula_length(cursor)?;
        cursor.advance(n);
        let last = place(self.total, cursor);
        let rule = Handler { total: self.total };
        let handlers = fold_many(&rule, Items::new(cursor.alloc), cursor)?;
        properties.push(Property {
            logic,
            first,
            last,
            handlers,
        })?;
        Ok(properties)
    }
}

/// "@" NAME Block
#[derive(Clone, Copy)]
struct Handler {
    total: u32,
}

impl Repeat for Handler {
    type Accumulator = Items<HandlerText>;

    ghost continues = { begins_handler };

    ghost more = { λ rule. handler_at rule.total };

    fn is_next(cursor: &Cursor<'_>) -> bool {
        cursor.is_mark_at(0, b"@")
    }

    #[tactic(auto, unfolding(crate::specs::Rules::handler_at))]
    fn add(
        &self,
        whole: Items<HandlerText>,
        cursor: &mut Cursor<'_>,
    ) -> Result<Items<HandlerText>, SpecError> {
        let mut handlers = whole;
        cursor.mark(b"@")?;
        let category = cursor.name()?;
        let (first, last) = block(self.total, cursor)?;
        handlers.push(HandlerText {
            category,
            first,
            last,
        })?;
        Ok(handlers)
    }
}

/// The range of the tokens inside a block, counted in the file.
#[tactic(auto, unfolding(crate::specs::Rules::block_at))]
fn block(total: u32, cursor: &mut Cursor<'_>) -> Result<(u32, u32), SpecError>
    ensures { Takes cursor.old result cursor.new (block_at total) }
{
    if !cursor.is_mark_at(0, b"{") {
        return Err(cursor.syntax());
    }
    let first = place(total, cursor) + 1;
    run(cursor)?;
    Ok((first, place(total, cursor).saturating_sub(1)))
}
