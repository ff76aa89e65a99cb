//! What stands in front of the object of an event of one parameter: the names of the event and of the parameter.
ghost use Rattle.std.specs.Prelude.{ℕ, ◌≡◌, ◌<◌, ◌^◌, length, IfOk};
ghost use Rattle.jm_print.specs.Lexicons.{Lexicon};
ghost use Rattle.jm_print.specs.Shorts.{AreHeads, IsHeadOf, IsNamedBy};

use crate::page::Page;
use crate::short::{MOST, ShortText};
use jm_events::EventTable;
use jm_model::{Letter, NoMemory};
use std::alloc::Global;

/// The head of the events with a letter, and their parameter as a mask; a mask of 0 where there is no head.
#[derive(Clone, Copy)]
pub(crate) struct Head {
    pub(crate) mask: u8,
    pub(crate) text: ShortText,
}

/// The heads of a table's events, in the order of their letters.
pub(crate) fn heads_of(alloc: Global, table: &EventTable) -> Result<Vec<Head>, NoMemory>
    ensures { IfOk result (λ heads. (l : Lexicon) → IsNamedBy l table.now → AreHeads l heads.items) }
{
    let mut heads = Vec::new(alloc);
    for letter in 0..table.letters() {
        heads.push(head_of(alloc, table, Letter(letter))?)?;
    }
    Ok(heads)
}

fn head_of(alloc: Global, table: &EventTable, letter: Letter) -> Result<Head, NoMemory>
    requires { letter.0 < length table.now.events }
    ensures { IfOk result (λ head. (l : Lexicon) → IsNamedBy l table.now → IsHeadOf l letter.0 head) }
{
    let mask = table.mask(letter);
    for p in 0..table.params() {
        if mask == 1 << p {
            return head_at(alloc, table, letter, p, mask);
        }
    }
    Ok(no_head())
}

/// The head of a letter that has this parameter, which has this mask, if it is short.
fn head_at(
    alloc: Global,
    table: &EventTable,
    letter: Letter,
    p: u8,
    mask: u8,
) -> Result<Head, NoMemory>
    requires letter { letter.0 < length table.now.events }
    requires parameter { p < length table.now.parameters }
    requires mask { (p < 8) × (mask ≡ 2 ^ p) }
    ensures { IfOk result (λ head. (l : Lexicon) → IsNamedBy l table.now → IsHeadOf l letter.0 head) }
{
    let mut page = Page::new(alloc);
    page.text(table.event_name(letter))?;
    page.byte(b' ')?;
    page.text(table.param_name(p))?;
    page.byte(b'=')?;
    let bytes = page.into_bytes();
    if bytes.len() > MOST {
        return Ok(no_head());
    }
    Ok(Head {
        mask,
        text: ShortText::new(bytes.as_slice()),
    })
}

fn no_head() -> Head
    ensures { (l : Lexicon) (letter : ℕ) → IsHeadOf l letter result }
{
    Head {
        mask: 0,
        text: ShortText::new(&[]),
    }
}
