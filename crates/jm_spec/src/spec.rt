//! The reader of a specification.
ghost use Rattle.std.specs.Prelude.{◌<◌, ◌^◌, length, All, IfOk, IfErr};
ghost use Rattle.jm_text.specs.Spans.{LieWithin};
ghost use Rattle.jm_spec.specs.Spelling.{Spells};
ghost use Rattle.jm_spec.specs.Trees.{IsTreeOfTokens, IsFewProperties, IsFaultOfTokens, IsUnspelled, HasRange};

use crate::frame::{Frame, file};
use crate::tree::{SpecTree, tree_of};
use jm_model::SpecError;
use jm_reading::Cursor;
use jm_text::Token;
use std::alloc::Global;

/// The frame of the file whose tokens these are, fewer than 2^32.
///
/// `Bad` has the first fault: `Syntax` where the tokens spell no frame, or else the fault of the first step that has
/// one: modifiers, advice, properties, the logic, parameters, events.
///
/// The line of `Syntax` is that of the first token that can't go on, or of the last token at the end, and 1 in a file
/// without tokens.
pub fn read_spec(alloc: Global, bytes: &[u8], tokens: &[Token]) -> Result<SpecTree, SpecError>
    requires within { LieWithin bytes.now tokens.now }
    requires bounded { length tokens.now < 2 ^ 32 }
    ensures ok { IfOk result (IsTreeOfTokens bytes.now tokens.now) }
    ensures bounded { IfOk result IsFewProperties }
    ensures err { IfErr result (IsFaultOfTokens bytes.now tokens.now) }
{
    let frame = read_frame(alloc, bytes, tokens)?;
    tree_of(alloc, bytes, frame)
}

/// Reads the frame, of which `tree_of` makes the tree: nothing but the grammar is asked yet. The one fault is `Syntax`.
pub fn read_frame(alloc: Global, bytes: &[u8], tokens: &[Token]) -> Result<Frame, SpecError>
    requires within { LieWithin bytes.now tokens.now }
    requires bounded { length tokens.now < 2 ^ 32 }
    ensures ok { IfOk result (Spells bytes.now tokens.now) }
    ensures ranges { IfOk result (λ frame. All (HasRange (length tokens.now)) frame.properties) }
    ensures err { IfErr result (IsUnspelled bytes.now tokens.now) }
{
    let mut cursor = Cursor::new(alloc, bytes, tokens, 1);
    file(tokens.len() as u32, &mut cursor)
}
