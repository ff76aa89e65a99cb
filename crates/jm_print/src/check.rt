ghost use Rattle.std.specs.Prelude.{◌≡◌, ◌<◌, ◌++◌, ◌∷◌, [], codes, length, map, Some, IfOk, OnOk, slice_get, if◌then◌else◌};
ghost use Rattle.std.specs.List.{flat_map};
ghost use Rattle.jm_events.specs.Events.{EventDefinition};
ghost use Rattle.jm_print.specs.Checks.{logic_word, event_text, event_line, handler_line, check_text};
ghost use Rattle.jm_print.specs.Lists.{name_list};

use crate::lists::{masked_or_dash, name, parameters};
use crate::page::Page;
use jm_events::{EventTable, Names};
use jm_model::{Letter, NoMemory};
use jm_spec::Logic;
use std::alloc::Global;

/// What a specification declares: its name and the logics of its properties, `full-binding` and `suffix` where they
/// stand, its parameters, its events with their parameters, and the names of its handlers.
pub fn render_check(
    alloc: Global,
    name: &str,
    logics: &[Logic],
    full_binding: bool,
    suffix: bool,
    table: &EventTable,
    categories: &Names,
) -> Result<Vec<u8>, NoMemory>
    ensures { IfOk result (λ text.
        text.items ≡ check_text name.now logics.now full_binding suffix table.now categories.now) }
{
    let mut page = Page::new(alloc);
    page.text("spec ")?;
    page.text(name)?;
    page.text(" ")?;
    logic_words(&mut page, logics)?;
    page.text("\n")?;
    page.text(binding_line(full_binding))?;
    page.text(suffix_line(suffix))?;
    page.text("params ")?;
    parameters(&mut page, table)?;
    page.text("\n")?;
    events(&mut page, table)?;
    handlers(&mut page, categories)?;
    page.text("end\n")?;
    Ok(page.into_bytes())
}

/// The words of logics, with commas between.
fn logic_words(page: &mut Page, logics: &[Logic]) -> Result<(), NoMemory>
    ensures { OnOk result (page.new ≡ page.old ++ name_list (map logic_word logics.now)) }
{
    let mut first = true;
    for logic in logics {
        name(page, first, word(*logic))?;
        first = false;
    }
    Ok(())
}

/// The word of a logic.
fn word(logic: Logic) -> &'static str
    ensures { result.now ≡ logic_word logic }
{
    match logic {
        Logic::Fsm => "fsm",
        Logic::Ere => "ere",
        Logic::Cfg => "cfg",
        Logic::Ptltl => "ptltl",
    }
}

/// The line that says that only full bindings are reported, where that is so.
fn binding_line(full_binding: bool) -> &'static str
    ensures { result.now ≡ (if full_binding then codes "full-binding\n" else []) }
{
    if full_binding { "full-binding\n" } else { "" }
}

/// The line that says that the rule may begin anywhere, where that is so.
fn suffix_line(suffix: bool) -> &'static str
    ensures { result.now ≡ (if suffix then codes "suffix\n" else []) }
{
    if suffix { "suffix\n" } else { "" }
}

/// A line for each event, in the order of the letters.
fn events(page: &mut Page, table: &EventTable) -> Result<(), NoMemory>
    ensures { OnOk result (page.new ≡ page.old ++ flat_map (event_line table.now.parameters) table.now.events) }
{
    for letter in 0..table.letters() {
        event(page, table, Letter(letter))?;
    }
    Ok(())
}

/// An event with its parameters.
fn event(page: &mut Page, table: &EventTable, letter: Letter) -> Result<(), NoMemory>
    requires in_range { letter.0 < length table.now.events }
    requires fits { letter.0 < 32 }
    ensures { OnOk result ((e : EventDefinition) → slice_get table.now.events letter.0 ≡ Some e →
        page.new ≡ page.old ++ event_line table.now.parameters e) }
{
    let creation = is_creation(table, letter);
    event_text(
        page,
        table,
        creation,
        table.event_name(letter),
        table.mask(letter),
    )
}

/// Whether a letter is that of a creation event.
fn is_creation(table: &EventTable, letter: Letter) -> bool
    requires { letter.0 < 32 }
    ensures { (e : EventDefinition) → slice_get table.now.events letter.0 ≡ Some e → result ≡ e.creation }
{
    table.creation() & 1 << letter.0 != 0
}

/// An event of a name, with the parameters of a mask.
fn event_text(
    page: &mut Page,
    table: &EventTable,
    creation: bool,
    name: &str,
    mask: u8,
) -> Result<(), NoMemory>
    ensures { OnOk result (page.new ≡ page.old ++ event_text table.now.parameters creation name.now mask) }
{
    page.text(kind(creation))?;
    page.text(name)?;
    page.text(" ")?;
    masked_or_dash(page, table, mask)?;
    page.text("\n")
}

/// What an event is called.
fn kind(creation: bool) -> &'static str
    ensures { result.now ≡ (if creation then codes "creation event " else codes "event ") }
{
    if creation {
        "creation event "
    } else {
        "event "
    }
}

/// A line for each handler.
fn handlers(page: &mut Page, categories: &Names) -> Result<(), NoMemory>
    ensures { OnOk result (page.new ≡ page.old ++ flat_map handler_line categories.now) }
{
    for number in 0..categories.len() {
        handler(page, categories.name(number))?;
    }
    Ok(())
}

/// The name of a handler.
fn handler(page: &mut Page, name: &str) -> Result<(), NoMemory>
    ensures { OnOk result (page.new ≡ page.old ++ handler_line name.now) }
{
    page.text("handler @")?;
    page.text(name)?;
    page.text("\n")
}
