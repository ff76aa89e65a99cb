//! The event that a line names.
ghost use Rattle.std.specs.Prelude.{◌≡◌, ◌<◌, ◌≤◌, length, count_ones, IfOk, IsUtf8};
ghost use Rattle.jm_script.specs.Events.{named_event};
ghost use Rattle.jm_script.specs.Fitting.{HasEvent};

use crate::catalog::Catalog;
use jm_lines::text;
use jm_model::{Letter, ScriptFault};

/// An event of a specification, with the set of its parameters.
#[derive(Clone, Copy)]
pub struct NamedEvent {
    pub spec: u8,
    pub letter: Letter,
    pub mask: u8,
}

/// The event of these names, if it has the given number of parameters.
pub fn named_event(
    catalog: &Catalog,
    line: u32,
    spec: &[u8],
    event: &[u8],
    count: usize,
) -> Result<NamedEvent, ScriptFault>
    requires spec_text { IsUtf8 spec.now }
    requires event_text { IsUtf8 event.now }
    ensures value { result ≡ named_event catalog.now line spec.now event.now count }
    ensures present { IfOk result (λ e. HasEvent catalog.now e.spec e.letter.0 e.mask) }
    ensures bounded { IfOk result (λ e. (count ≤ 8) × (e.mask < 256)) }
    ensures counted { IfOk result (λ e. count ≡ count_ones e.mask) }
{
    let Some(spec) = catalog.find(text(spec)) else {
        return Err(ScriptFault::UnknownSpec { line });
    };
    let table = catalog.table(spec);
    let Some(letter) = table.letter(text(event)) else {
        return Err(ScriptFault::UnknownEvent { line });
    };
    let mask = table.mask(letter);
    if mask.count_ones() as usize != count {
        return Err(ScriptFault::WrongCount { line });
    }
    Ok(NamedEvent { spec, letter, mask })
}
