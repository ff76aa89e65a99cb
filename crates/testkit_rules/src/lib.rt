//! The rules of a whole specification, as cases give them.
#![tactic(auto)]

ghost use Rattle.std.specs.Prelude.{◌<◌, ◌^◌, length};
ghost use Rattle.jm_text.specs.Spans.{LieWithin};

use jm_machine::Rules;
use jm_model::SpecError;
use jm_spec::read_spec;
use jm_text::Token;
use std::alloc::Global;
use testkit_tokens::tokens_of;

/// The rules that the bytes of a specification say, or their fault.
pub fn rules_of(alloc: Global, bytes: &[u8]) -> Result<Rules, SpecError> {
    let all = tokens_of(alloc, bytes)?;
    compiled(alloc, bytes, &all)
}

fn compiled(alloc: Global, bytes: &[u8], tokens: &[Token]) -> Result<Rules, SpecError>
    requires within { LieWithin bytes.now tokens.now }
    requires bounded { length tokens.now < 2 ^ 32 }
{
    let tree = read_spec(alloc, bytes, tokens)?;
    Rules::compile(alloc, bytes, tokens, &tree)
}
