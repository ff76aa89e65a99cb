//! How many parentheses of a formula are open at once.
ghost use Rattle.std.specs.Prelude.{◌≡◌, true, false, OnOk, OnErr, IfErr};
ghost use Rattle.jm_model.specs.declared.fault.Counted.TheVariants.{Nesting};
ghost use Rattle.jm_model.specs.declared.fault.SpecError.TheVariants.{Bad};
ghost use Rattle.jm_model.specs.declared.fault.SpecFault.TheVariants.{TooMany};
ghost use Rattle.jm_text.specs.Spans.{LieWithin};
ghost use Rattle.jm_reading.specs.Nesting.{is_too_deep};

use jm_model::{Counted, SpecError, SpecFault};
use jm_text::{Token, is_mark};

/// How many parentheses may be open at once.
const MAX_DEPTH: u32 = 64;

/// No 65th parenthesis is open at once.
pub fn check_nesting(bytes: &[u8], tokens: &[Token]) -> Result<(), SpecError>
    requires { LieWithin bytes.now tokens.now }
    ensures ok { OnOk result (is_too_deep bytes.now 0 tokens.now ≡ false) }
    ensures err { OnErr result (is_too_deep bytes.now 0 tokens.now ≡ true) }
    ensures fault { IfErr result (λ e. e ≡ Bad (TooMany Nesting)) }
{
    let mut depth: u32 = 0;
    for token in tokens {
        if is_mark(bytes, *token, b"(") {
            depth += 1;
        } else if is_mark(bytes, *token, b")") {
            depth = depth.saturating_sub(1);
        }
        if depth > MAX_DEPTH {
            let what = Counted::Nesting;
            return Err(SpecFault::TooMany { what }.into());
        }
    }
    Ok(())
}
