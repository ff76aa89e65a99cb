//! What the rules of the frame's grammar share.
ghost use Rattle.std.specs.Prelude.{◌≡◌};
ghost use Rattle.jm_reading.specs.Answers.{Leaves};
ghost use Rattle.jm_spec.specs.Reading.{place, any_word_at};

use jm_model::SpecError;
use jm_reading::Cursor;
use jm_text::TokenKind;

/// The number of the next token, in a file of `total` tokens.
pub fn place(total: u32, cursor: &Cursor<'_>) -> u32
    ensures { result ≡ place total cursor.now.rest.now }
{
    (total as usize).saturating_sub(cursor.rest.len()) as u32
}

/// Reads a word, whichever it is.
#[tactic(auto, unfolding(crate::specs::Reading::any_word_at))]
pub fn any_word(cursor: &mut Cursor<'_>) -> Result<(), SpecError>
    ensures reads { Leaves result cursor.new.rest.now (any_word_at cursor.old.rest.now) }
    ensures bytes { cursor.new.bytes.now ≡ cursor.old.bytes.now }
{
    match cursor.rest {
        [token, ..] if token.kind == TokenKind::Word => {
            cursor.advance(1);
            Ok(())
        }
        _ => Err(cursor.syntax()),
    }
}
