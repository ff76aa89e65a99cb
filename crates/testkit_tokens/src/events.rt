ghost use Rattle.std.specs.Prelude.{◌<◌, ◌^◌, IsTrue, length};

use jm_events::EventTable;
use jm_model::{Letter, SpecError};
use std::alloc::{AllocError, Global};
use testkit::put_word;

/// The events of a text, of which the first is on line 101, and so on.
pub fn events_of(alloc: Global, text: &str) -> Result<EventTable, SpecError> {
    let mut events = EventTable::new(alloc);
    let mut line = 100u32;
    for name in text.split_whitespace() {
        line = line.saturating_add(1);
        events.add_event(name, 0, false, line)?;
    }
    Ok(events)
}

/// The table of a text such as `c i create=3 next=2`: its parameters, and its events, each with the mask of what it
/// binds.
pub fn table_of(alloc: Global, text: &str) -> Result<EventTable, SpecError> {
    let mut table = EventTable::new(alloc);
    for word in text.split_whitespace() {
        add_word(&mut table, word)?;
    }
    Ok(table)
}

/// Adds a parameter `NAME` or an event `NAME=MASK`.
fn add_word(table: &mut EventTable, word: &str) -> Result<(), SpecError> {
    let Some((name, mask)) = word.split_once('=') else {
        table.add_param(word, 1)?;
        return Ok(());
    };
    let mask = mask.parse::<u8>().unwrap_or(0);
    if has_params(table, mask) {
        table.add_event(name, mask, false, 2)?;
    }
    Ok(())
}

/// Whether the table has the parameters of a mask.
fn has_params(table: &EventTable, mask: u8) -> bool
    ensures { IsTrue result → mask < 2 ^ length table.now.parameters }
{
    match table.params() {
        0 => mask < 1,
        1 => mask < 2,
        2 => mask < 4,
        8 => true,
        _ => false,
    }
}

/// Appends the parameters.
pub fn put_params(out: &mut String, table: &EventTable) -> Result<(), AllocError> {
    for param in 0..table.params() {
        put_word(out, table.param_name(param))?;
    }
    Ok(())
}

/// Appends the events, each with its mask, its line and a `+` where it is a creation event.
pub fn put_events(alloc: Global, out: &mut String, table: &EventTable) -> Result<(), AllocError> {
    let creation = table.creation();
    for letter in 0..table.letters() {
        let sign = if creation >> letter & 1 == 1 { "+" } else { "" };
        let name = table.event_name(Letter(letter));
        let mask = table.mask(Letter(letter));
        let line = table.event_line(Letter(letter));
        let event = format!(in alloc; "{sign}{name}/{mask}/{line}")?;
        put_word(out, event.as_str())?;
    }
    Ok(())
}
