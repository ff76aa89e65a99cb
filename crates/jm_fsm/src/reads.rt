//! The reader of a state machine.
ghost use Rattle.std.specs.Prelude.{IfOk, IfErr};
ghost use Rattle.jm_text.specs.Spans.{LieWithin};
ghost use Rattle.jm_fsm.specs.Readings.{IsReadFrom, IsRefused};

use crate::machine::Fsm;
use crate::parse::formula;
use crate::resolve::machine_of;
use jm_events::EventTable;
use jm_model::SpecError;
use jm_reading::Cursor;
use jm_text::Token;
use std::alloc::Global;

/// The state machine of a formula, whose tokens these are. The token before them is on the line.
///
/// `Syntax` comes exactly where the grammar doesn't spell the tokens. Its line is that of the first token that can't go
/// on, or of the last token at the end, and the given one in an empty formula. Each other fault is that of the first
/// step that has one: `TooMany` aliases, `ReservedName`, `DuplicateState`, `DuplicateTransition`, `TooManyStates`,
/// `UnknownName`. Within a step the first token that offends gives the line.
pub fn read(
    alloc: Global,
    bytes: &[u8],
    tokens: &[Token],
    line: u32,
    table: &EventTable,
) -> Result<Fsm, SpecError>
    requires { LieWithin bytes.now tokens.now }
    ensures ok { IfOk result (IsReadFrom bytes.now tokens.now table.now) }
    ensures err { IfErr result (IsRefused bytes.now tokens.now table.now) }
{
    let mut cursor = Cursor::new(alloc, bytes, tokens, line);
    let parts = formula(&mut cursor)?;
    machine_of(alloc, bytes, parts.as_slice(), table)
}
