//! How far a statement of a block goes.
ghost use Rattle.std.specs.Prelude.{◌≡◌, ◌<◌, ◌-◌, ◌^◌, length};
ghost use Rattle.jm_text.specs.Spans.{LiesWithin, LieWithin};
ghost use Rattle.jm_handler.specs.Statements.{depth_behind, may_end, IsStatement};

use jm_text::{Token, is_mark};

/// How many tokens are a statement, from the front on.
pub(crate) fn statement_length(bytes: &[u8], tokens: &[Token]) -> usize
    requires within { LieWithin bytes.now tokens.now }
    requires some { 0 < length tokens.now }
    ensures { IsStatement bytes.now tokens.now result }
{
    let mut depth = 0;
    for (i, token) in tokens.iter().enumerate() {
        depth = depth_behind(bytes, depth, *token);
        if depth == 0 && may_end(bytes, *token) {
            return i + 1;
        }
    }
    tokens.len()
}

/// How many brackets are open after a token.
fn depth_behind(bytes: &[u8], depth: usize, token: Token) -> usize
    requires within { LiesWithin bytes.now token }
    requires bounded { depth < 2 ^ 64 - 1 }
    ensures { result ≡ depth_behind bytes.now depth token }
{
    if is_mark(bytes, token, b"(") || is_mark(bytes, token, b"[") || is_mark(bytes, token, b"{") {
        depth + 1
    } else if is_mark(bytes, token, b")")
        || is_mark(bytes, token, b"]")
        || is_mark(bytes, token, b"}")
    {
        depth.saturating_sub(1)
    } else {
        depth
    }
}

/// Whether a statement ends with the token, where no bracket is open after it.
fn may_end(bytes: &[u8], token: Token) -> bool
    requires { LiesWithin bytes.now token }
    ensures { result ≡ may_end bytes.now token }
{
    is_mark(bytes, token, b";") || is_mark(bytes, token, b"}")
}
