//! Rules one time after the other.
ghost use Rattle.std.specs.Prelude.{◌≡◌, List, Bool};
ghost use Rattle.jm_model.specs.Words.{Text};
ghost use Rattle.jm_text.specs.declared.token.Token.{Token};
ghost use Rattle.jm_reading.specs.Taking.{Rule, Takes, folded_at};

use crate::cursor::Cursor;
use jm_model::SpecError;

/// A rule that may be read one time after the other, where each time adds to what was read before.
pub trait Repeat {
    /// What was read so far.
    type Accumulator: Drop;

    /// Whether the tokens go on with the rule.
    ghost continues: { Text → List Token → Bool };

    /// What the rule makes of what was read before, at the front of tokens.
    ghost more: { Self → Self.Accumulator → Rule Self.Accumulator };

    fn is_next(cursor: &Cursor<'_>) -> bool
        ensures { result ≡ continues cursor.now.bytes.now cursor.now.rest.now };

    /// Reads the rule once.
    fn add(
        &self,
        whole: Self::Accumulator,
        cursor: &mut Cursor<'_>,
    ) -> Result<Self::Accumulator, SpecError>
        ensures { Takes cursor.old result cursor.new (more self.now whole) };
}

/// The rule as often as it is next, from this on. More times than tokens are `Syntax`.
pub fn fold_many<R: Repeat>(
    rule: &R,
    whole: R::Accumulator,
    cursor: &mut Cursor<'_>,
) -> Result<R::Accumulator, SpecError>
    ensures { Takes cursor.old result cursor.new (folded_at R.continues (R.more rule.now) whole) }
{
    let mut whole = whole;
    for _ in 0..cursor.rest.len() {
        if !R::is_next(cursor) {
            return Ok(whole);
        }
        whole = rule.add(whole, cursor)?;
    }
    if R::is_next(cursor) {
        return Err(cursor.syntax());
    }
    Ok(whole)
}
