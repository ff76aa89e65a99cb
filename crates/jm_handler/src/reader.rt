//! Reading a handler's block.
ghost use Rattle.std.specs.Prelude.{◌≡◌, MatchOption, IfOk};
ghost use Rattle.jm_text.specs.Spans.{LiesWithin, LieWithin};
ghost use Rattle.jm_handler.specs.Terms.{AreTerms, AreNoTerms, Prints, PrintsNone, term_of, is_call};
ghost use Rattle.jm_handler.specs.Blocks.{Says};

use crate::handler::{Handler, Statement};
use crate::quoted::{inside_of, is_quoted, resolved};
use crate::statement::statement_length;
use crate::term::Term;
use jm_events::EventTable;
use jm_model::NoMemory;
use jm_reading::Cursor;
use jm_text::{Token, is_mark, is_word, name, text};
use std::alloc::Global;

/// What the tokens inside a handler's block say, where the specification has the parameters of this table. The tokens
/// are of these bytes.
///
/// The statements are looked at one by one. Any tokens are taken: brackets are counted, and not compared.
pub fn read_handler(
    alloc: Global,
    bytes: &[u8],
    tokens: &[Token],
    table: &EventTable,
) -> Result<Handler, NoMemory>
    requires { LieWithin bytes.now tokens.now }
    ensures { IfOk result (Says bytes.now table.now.parameters tokens.now) }
{
    let mut handler = Handler::new(alloc);
    let mut start = 0;
    while start < tokens.len() {
        let rest = &tokens[start..];
        let end = statement_length(bytes, rest);
        if let Some(statement) = statement_of(alloc, bytes, &rest[..end], table)? {
            handler.push(statement)?;
        }
        start += end;
    }
    Ok(handler)
}

/// What a statement prints, if it does.
fn statement_of(
    alloc: Global,
    bytes: &[u8],
    run: &[Token],
    table: &EventTable,
) -> Result<Option<Statement>, NoMemory>
    requires { LieWithin bytes.now run.now }
    ensures { IfOk result (λ statement. MatchOption statement (PrintsNone bytes.now table.now.parameters run.now)
        (Prints bytes.now table.now.parameters run.now)) }
{
    if !is_call(alloc, bytes, run) {
        return Ok(None);
    }
    terms_of(alloc, bytes, &run[6..run.len() - 2], table)
}

/// Whether the tokens are those of a statement that is a call of `println`, with any tokens for its argument.
fn is_call(alloc: Global, bytes: &[u8], run: &[Token]) -> bool
    requires { LieWithin bytes.now run.now }
    ensures { result ≡ is_call bytes.now run.now }
{
    let length = run.len();
    let run = Cursor::new(alloc, bytes, run, 0);
    length >= 8
        && run.is_word_at(0, b"System")
        && run.is_mark_at(1, b".")
        && (run.is_word_at(2, b"out") || run.is_word_at(2, b"err"))
        && run.is_mark_at(3, b".")
        && run.is_word_at(4, b"println")
        && run.is_mark_at(5, b"(")
        && run.is_mark_at(length - 2, b")")
        && run.is_mark_at(length - 1, b";")
}

/// The terms that the tokens say, if they say terms.
fn terms_of(
    alloc: Global,
    bytes: &[u8],
    tokens: &[Token],
    table: &EventTable,
) -> Result<Option<Statement>, NoMemory>
    requires { LieWithin bytes.now tokens.now }
    ensures { IfOk result (λ terms. MatchOption terms (AreNoTerms bytes.now table.now.parameters tokens.now)
        (AreTerms bytes.now table.now.parameters tokens.now)) }
{
    let mut terms = Statement::new(alloc);
    if tokens.is_empty() {
        return Ok(Some(terms));
    }
    let Some(first) = term_of(alloc, bytes, tokens[0], table)? else {
        return Ok(None);
    };
    terms.push(first)?;
    let mut i = 1;
    while i + 1 < tokens.len() {
        if !is_mark(bytes, tokens[i], b"+") {
            return Ok(None);
        }
        let Some(term) = term_of(alloc, bytes, tokens[i + 1], table)? else {
            return Ok(None);
        };
        terms.push(term)?;
        i += 2;
    }
    if i < tokens.len() {
        return Ok(None);
    }
    Ok(Some(terms))
}

/// The term that a token is, if it is one.
fn term_of(
    alloc: Global,
    bytes: &[u8],
    token: Token,
    table: &EventTable,
) -> Result<Option<Term>, NoMemory>
    requires { LiesWithin bytes.now token }
    ensures { IfOk result (λ term. term ≡ term_of bytes.now table.now.parameters token) }
{
    if is_quoted(bytes, token) {
        let literal = resolved(alloc, inside_of(text(bytes, token)))?;
        return Ok(Some(Term::Literal(literal)));
    }
    if is_word(bytes, token, b"__LOC") {
        return Ok(Some(Term::Place));
    }
    let Some(name) = name(bytes, token) else {
        return Ok(None);
    };
    Ok(
        table
            .param(name)
            .map(|parameter| Term::Parameter(parameter)),
    )
}
