//! The tokens of a file.
ghost use Rattle.std.specs.Prelude.{◌≡◌, ◌<◌, ◌≤◌, ◌==◌, ◌^◌, ℕ, length, count_by, IfOk, IfErr, IsErr, IsErrOf, IsUtf8};
ghost use Rattle.jm_text.specs.Tokens.{AreTokensOf, IsOpenOn, IsFaultOf};
ghost use Rattle.jm_text.specs.Pieces.{line_feed};
ghost use Rattle.jm_text.specs.Spans.{LieInOrder, LieWithin};

use crate::piece::{Piece, piece_of};
use crate::token::Token;
use jm_model::{SpecError, SpecFault};
use std::alloc::Global;
use std::str::from_utf8;

/// The tokens of a file of fewer than 2^32 bytes.
pub fn tokens(alloc: Global, bytes: &[u8]) -> Result<Vec<Token>, SpecError>
    requires { length bytes.now < 2 ^ 32 }
    ensures ok { IfOk result (λ v. AreTokensOf bytes.now v.items) }
    ensures in_order { IfOk result (λ v. LieInOrder 0 v.items (length bytes.now)) }
    ensures within { IfOk result (λ v. LieWithin bytes.now v.items) }

    ensures err { IfErr result (IsFaultOf bytes.now) }
    ensures not_utf8 { ¬ (IsUtf8 bytes.now) → IsErrOf result (SpecError.Bad SpecFault.NotUtf8) }
    ensures open { (line : ℕ) → IsOpenOn bytes.now line → IsErr result }
{
    if from_utf8(bytes).is_err() {
        return Err(SpecFault::NotUtf8.into());
    }
    let mut tokens = Vec::new(alloc);
    let mut start = 0;
    let mut line = 1;
    while start < bytes.len() {
        let rest = &bytes[start..];
        let end = match piece_of(rest) {
            Piece::Gap(n) => start + n,
            Piece::Cut(kind, n) => {
                let token = Token {
                    kind,
                    start: start as u32,
                    end: (start + n) as u32,
                    line: line as u32,
                };
                tokens.push(token)?;
                start + n
            }
            Piece::Open => return Err(SpecFault::OpenText { line: line as u32 }.into()),
        };
        line += line_feeds(&bytes[start..end]);
        start = end;
    }
    Ok(tokens)
}

/// How many lines end in the bytes.
fn line_feeds(bytes: &[u8]) -> usize
    ensures value { result ≡ count_by (λ b. b == line_feed) bytes.now }
    ensures bounded { result ≤ length bytes.now }
{
    bytes.iter().filter(|b| **b == b'\n').count()
}
