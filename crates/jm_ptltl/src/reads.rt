//! The reader of a past-time formula.
ghost use Rattle.std.specs.Prelude.{IfOk, IfErr};
ghost use Rattle.jm_text.specs.Spans.{LieWithin};
ghost use Rattle.jm_ptltl.specs.Readings.{IsReadFrom, IsRefused};

use crate::parse::formula;
use crate::past::Past;
use crate::resolve::past_of;
use jm_events::EventTable;
use jm_model::SpecError;
use jm_reading::{Cursor, check_nesting};
use jm_text::Token;
use std::alloc::Global;

/// The past-time formula that these tokens spell. The token before them is on the line.
///
/// The faults come in this order. `TooMany` nesting: a 65th parenthesis is open at once, which is asked of the tokens
/// alone. `Syntax`: the grammar doesn't spell the tokens; its line is that of the first token that can't go on, or of
/// the last token at the end, and the given one in an empty formula. `TooMany` subformulas: there are more than 64,
/// each occurrence counted. `ReservedName`: an event has the name of a word of the grammar; its line is the event's.
/// `UnknownName`: a name in the formula is no event's; its line is that of the first one.
pub fn read(
    alloc: Global,
    bytes: &[u8],
    tokens: &[Token],
    line: u32,
    table: &EventTable,
) -> Result<Past, SpecError>
    requires { LieWithin bytes.now tokens.now }
    ensures ok { IfOk result (IsReadFrom bytes.now tokens.now table.now) }
    ensures err { IfErr result (IsRefused bytes.now tokens.now table.now) }
{
    check_nesting(bytes, tokens)?;
    let mut cursor = Cursor::new(alloc, bytes, tokens, line);
    let nodes = formula(&mut cursor)?;
    past_of(alloc, bytes, nodes.as_slice(), table)
}
