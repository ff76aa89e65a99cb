ghost use Rattle.std.specs.Prelude.{◌≡◌, ◌++◌, length, map, codes, IfOk, OnOk};
ghost use Rattle.std.specs.List.{flat_map};
ghost use Rattle.jm_events.specs.Events.{event_names};
ghost use Rattle.jm_print.specs.Coenables.{set_text, family_line, family_lines, coenable_text};

use crate::lists::masked;
use crate::page::Page;
use jm_events::EventTable;
use jm_model::{Letter, NoMemory};
use std::alloc::Global;

/// The coenable sets of a specification: a line for each event, with the sets of its family in their order. A set is a
/// mask of parameters, whose bits past the last parameter aren't printed. There is a family for each event.
pub fn render_coenable(
    alloc: Global,
    name: &str,
    table: &EventTable,
    families: &[Vec<u8>],
) -> Result<Vec<u8>, NoMemory>
    requires { length families.now ≡ length table.now.events }
    ensures { IfOk result (λ text.
        text.items ≡ coenable_text name.now table.now (map (λ family. family.items) families.now)) }
{
    let mut page = Page::new(alloc);
    page.text("spec ")?;
    page.text(name)?;
    page.text("\n")?;
    events(&mut page, table, families)?;
    page.text("end\n")?;
    Ok(page.into_bytes())
}

/// The events with their families.
fn events(page: &mut Page, table: &EventTable, families: &[Vec<u8>]) -> Result<(), NoMemory>
    requires { length families.now ≡ length table.now.events }
    ensures { OnOk result (page.new ≡ page.old
        ++ family_lines table.now.parameters (event_names table.now) (map (λ family. family.items) families.now)) }
{
    for letter in 0..table.letters() {
        let family = families[letter as usize].as_slice();
        event(page, table, table.event_name(Letter(letter)), family)?;
    }
    Ok(())
}

/// An event of a name, with its family.
fn event(page: &mut Page, table: &EventTable, name: &str, family: &[u8]) -> Result<(), NoMemory>
    ensures { OnOk result (page.new ≡ page.old ++ family_line table.now.parameters name.now family.now) }
{
    page.text("event ")?;
    page.text(name)?;
    sets(page, table, family)?;
    page.text("\n")
}

/// The sets of a family.
fn sets(page: &mut Page, table: &EventTable, family: &[u8]) -> Result<(), NoMemory>
    ensures { OnOk result (page.new ≡ page.old ++ flat_map (set_text table.now.parameters) family.now) }
{
    for mask in family {
        set(page, table, *mask)?;
    }
    Ok(())
}

/// A set of parameters.
fn set(page: &mut Page, table: &EventTable, mask: u8) -> Result<(), NoMemory>
    ensures { OnOk result (page.new ≡ page.old ++ set_text table.now.parameters mask) }
{
    page.text(" {")?;
    masked(page, table, mask)?;
    page.text("}")
}
