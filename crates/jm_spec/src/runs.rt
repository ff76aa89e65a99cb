//! How far the runs of the grammar go over the tokens that are left. Each call that meets a token that can't go on
//! names that token's line, and at the end of the file the last line.
ghost use Rattle.std.specs.Prelude.{◌≡◌, ◌<◌, ◌≤◌, length, IfOk};
ghost use Rattle.jm_text.specs.Spans.{LieWithin};
ghost use Rattle.jm_reading.specs.Answers.{Gives};
ghost use Rattle.jm_spec.specs.Runs.{clause_length, member_length, may_end, parameter_length, parts, formula_length, ends_formula, begins_property};

use crate::brackets::{Bracket, Brackets, Sign, sign_of, without_angles};
use jm_model::{SpecError, SpecFault};
use jm_reading::Cursor;
use jm_text::{Token, is_mark, is_name};

/// How many tokens stand up to and with the first `;`.
pub fn clause_length(cursor: &Cursor<'_>) -> Result<usize, SpecError>
    ensures value { Gives result (clause_length cursor.now.bytes.now cursor.now.rest.now) }
    ensures some { IfOk result (λ n. 0 < n) }
    ensures fits { IfOk result (λ n. n ≤ length cursor.now.rest.now) }
{
    let (bytes, tokens) = (cursor.bytes, cursor.rest);
    for (i, token) in tokens.iter().enumerate() {
        if is_mark(bytes, *token, b";") {
            return Ok(i + 1);
        }
    }
    let line = cursor.last_line;
    Err(SpecFault::Syntax { line }.into())
}

/// How many tokens stand up to and with the first `;` or the first block outside brackets.
pub fn member_length(cursor: &Cursor<'_>) -> Result<usize, SpecError>
    ensures value { Gives result (member_length cursor.now.bytes.now cursor.now.rest.now) }
    ensures some { IfOk result (λ n. 0 < n) }
    ensures fits { IfOk result (λ n. n ≤ length cursor.now.rest.now) }
{
    let (bytes, tokens) = (cursor.bytes, cursor.rest);
    let mut brackets = Brackets::new(cursor.alloc);
    for (i, token) in tokens.iter().enumerate() {
        let sign = without_angles(sign_of(bytes, *token));
        if !brackets.follow(sign)? {
            return Err(SpecFault::Syntax { line: token.line }.into());
        }
        if brackets.is_empty() && may_end(sign) {
            return Ok(i + 1);
        }
    }
    let line = cursor.last_line;
    Err(SpecFault::Syntax { line }.into())
}

/// Whether a member may end with the token.
fn may_end(sign: Sign) -> bool
    ensures { result ≡ may_end sign }
{
    match sign {
        Sign::Semicolon | Sign::Close(Bracket::Curly) => true,
        _ => false,
    }
}

/// How many tokens stand before the next comma that parts parameters or the `)` that ends them.
pub fn parameter_length(cursor: &Cursor<'_>) -> Result<usize, SpecError>
    ensures value { Gives result (parameter_length cursor.now.bytes.now cursor.now.rest.now) }
    ensures fits { IfOk result (λ n. n < length cursor.now.rest.now) }
{
    let (bytes, tokens) = (cursor.bytes, cursor.rest);
    let mut brackets = Brackets::new(cursor.alloc);
    for (i, token) in tokens.iter().enumerate() {
        let sign = sign_of(bytes, *token);
        if parts(&brackets, sign) {
            if brackets.is_empty() {
                return Ok(i);
            }
            return Err(SpecFault::Syntax { line: token.line }.into());
        }
        if !brackets.follow(sign)? {
            return Err(SpecFault::Syntax { line: token.line }.into());
        }
    }
    let line = cursor.last_line;
    Err(SpecFault::Syntax { line }.into())
}

/// Whether a parameter can't go on over the token.
fn parts(brackets: &Brackets, sign: Sign) -> bool
    ensures { result ≡ parts brackets.now sign }
{
    match sign {
        Sign::Comma => !brackets.hold_commas(),
        Sign::Close(Bracket::Round) => brackets.is_empty(),
        _ => false,
    }
}

/// How many tokens stand before the first `@`, the first `}` or the first name with a colon after it.
pub fn formula_length(cursor: &Cursor<'_>) -> Result<usize, SpecError>
    ensures value { Gives result (formula_length cursor.now.bytes.now cursor.now.rest.now) }
    ensures fits { IfOk result (λ n. n < length cursor.now.rest.now) }
{
    let (bytes, tokens) = (cursor.bytes, cursor.rest);
    for i in 0..tokens.len() {
        if ends_formula(bytes, &tokens[i..]) {
            return Ok(i);
        }
    }
    let line = cursor.last_line;
    Err(SpecFault::Syntax { line }.into())
}

/// Whether a formula ends before the tokens.
fn ends_formula(bytes: &[u8], tokens: &[Token]) -> bool
    requires { LieWithin bytes.now tokens.now }
    ensures { result ≡ ends_formula bytes.now tokens.now }
{
    match tokens {
        [token, ..] if is_mark(bytes, *token, b"@") || is_mark(bytes, *token, b"}") => true,
        _ => begins_property(bytes, tokens),
    }
}

/// Whether a name and a colon stand at the front.
pub fn begins_property(bytes: &[u8], tokens: &[Token]) -> bool
    requires { LieWithin bytes.now tokens.now }
    ensures { result ≡ begins_property bytes.now tokens.now }
{
    match tokens {
        [name, colon, ..] => is_name(bytes, *name) && is_mark(bytes, *colon, b":"),
        _ => false,
    }
}
