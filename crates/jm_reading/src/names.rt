//! Names.
ghost use Rattle.std.specs.Prelude.{◌≡◌, OnOk, OnErr, IfErr};
ghost use Rattle.jm_events.specs.Names.{with_name};
ghost use Rattle.jm_reading.specs.Tokens.{name_of};

use jm_events::Names;
use jm_model::SpecError;
use jm_text::{Token, name};

/// The name that a token says, or an empty one where it says none.
#[tactic(auto, unfolding(crate::specs::Tokens::name_of))]
pub fn name_of<'a>(bytes: &'a [u8], token: Token) -> &'a str
    ensures { result.now ≡ name_of bytes.now token }
{
    if token.start <= token.end && token.end as usize <= bytes.len() {
        name(bytes, token).unwrap_or("")
    } else {
        ""
    }
}

/// Adds a name to others. There are never more than 2^32 - 1: a further one is refused as memory is.
pub fn add_name(names: &mut Names, name: &str) -> Result<(), SpecError>
    ensures ok { OnOk result (names.new ≡ with_name names.old name.now) }
    ensures err { IfErr result (λ e. e ≡ SpecError.NoMemory) }
    ensures unchanged { OnErr result (names.new ≡ names.old) }
{
    if names.len() == u32::MAX {
        return Err(SpecError::NoMemory);
    }
    names.add(name)?;
    Ok(())
}
