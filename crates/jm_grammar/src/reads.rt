//! The reader of a grammar.
ghost use Rattle.std.specs.Prelude.{IfOk, IfErr};
ghost use Rattle.jm_text.specs.Spans.{LieWithin};
ghost use Rattle.jm_grammar.specs.Readings.{IsReadFrom, IsRefused};

use crate::grammar::Grammar;
use crate::parse::formula;
use crate::resolve::grammar_of;
use jm_events::EventTable;
use jm_model::SpecError;
use jm_reading::Cursor;
use jm_text::Token;
use std::alloc::Global;

/// The grammar of a formula, whose tokens these are. The token before them is on the line.
///
/// Nonterminals are numbered from 0 by their first left side, and the start is 0. The productions are the alternatives
/// in order, each without its `epsilon`. There are at most 64 nonterminals, and at most 31 where `suffix` says that the
/// rule may begin anywhere.
///
/// `Syntax` comes exactly where the grammar of formulas doesn't spell the tokens. Its line is that of the first token
/// that can't go on, or of the last token at the end, and the given one in an empty formula. Each other fault is that
/// of the first step that has one: `TooMany` nonterminals, productions, symbols of one production, `ReservedName`,
/// `NameClash`, `UnknownName`. Within a step the first token that offends gives the line, and events stand before the
/// formula.
pub fn read(
    alloc: Global,
    bytes: &[u8],
    tokens: &[Token],
    line: u32,
    table: &EventTable,
    suffix: bool,
) -> Result<Grammar, SpecError>
    requires { LieWithin bytes.now tokens.now }
    ensures ok { IfOk result (IsReadFrom bytes.now tokens.now table.now suffix) }
    ensures err { IfErr result (IsRefused bytes.now tokens.now table.now suffix) }
{
    let mut cursor = Cursor::new(alloc, bytes, tokens, line);
    let parts = formula(&mut cursor)?;
    grammar_of(alloc, bytes, parts.as_slice(), table, suffix)
}
