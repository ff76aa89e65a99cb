ghost use Rattle.std.specs.Prelude.{◌<◌, ◌^◌, length, IfOk};
ghost use Rattle.jm_text.specs.Spans.{LieWithin};

use jm_model::SpecError;
use jm_text::{Token, text, tokens};
use std::alloc::{AllocError, Global};
use std::str::from_utf8;

/// The tokens of bytes, if neither are too many.
pub fn tokens_of(alloc: Global, bytes: &[u8]) -> Result<Vec<Token>, SpecError>
    ensures within { IfOk result (λ tokens. LieWithin bytes.now tokens.items) }
    ensures bounded { IfOk result (λ tokens. length tokens.items < 2 ^ 32) }
{
    let all = cut(alloc, bytes)?;
    if all.len() > 1_000_000 {
        return Err(SpecError::NoMemory);
    }
    Ok(all)
}

fn cut(alloc: Global, bytes: &[u8]) -> Result<Vec<Token>, SpecError>
    ensures { IfOk result (λ tokens. LieWithin bytes.now tokens.items) }
{
    if bytes.len() > 1_000_000 {
        return Err(SpecError::NoMemory);
    }
    tokens(alloc, bytes)
}

/// The text of a token.
pub fn said(bytes: &[u8], token: Token) -> &str {
    if token.start <= token.end && token.end as usize <= bytes.len() {
        from_utf8(text(bytes, token)).unwrap_or("?")
    } else {
        "?"
    }
}

/// The text, or the fault.
pub fn or_fault(alloc: Global, shown: Result<String, SpecError>) -> Result<String, AllocError> {
    match shown {
        Ok(text) => Ok(text),
        Err(fault) => format!(in alloc; "{fault:?}"),
    }
}
