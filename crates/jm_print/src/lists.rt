//! Lists of names.
ghost use Rattle.std.specs.Prelude.{◌≡◌, ◌++◌, ◌∷◌, [], codes, ◌<◌, ◌==◌, IfOk, OnOk, if◌then◌else◌};
ghost use Rattle.std.specs.Int.{bit_at};
ghost use Rattle.jm_print.specs.Lists.{name_list, names_or_dash, is_empty, names_of_mask};

use crate::page::Page;
use jm_events::EventTable;
use jm_model::NoMemory;

/// The parameters with commas between, or a dash.
pub(crate) fn parameters(page: &mut Page, table: &EventTable) -> Result<(), NoMemory>
    ensures { OnOk result (page.new ≡ page.old ++ names_or_dash table.now.parameters) }
{
    if table.params() == 0 {
        return page.text("-");
    }
    every(page, table)
}

/// The parameters with commas between.
fn every(page: &mut Page, table: &EventTable) -> Result<(), NoMemory>
    ensures { OnOk result (page.new ≡ page.old ++ name_list table.now.parameters) }
{
    let mut first = true;
    for p in 0..table.params() {
        name(page, first, table.param_name(p))?;
        first = false;
    }
    Ok(())
}

/// The parameters of a mask with commas between, or a dash.
pub(crate) fn masked_or_dash(page: &mut Page, table: &EventTable, mask: u8) -> Result<(), NoMemory>
    ensures { OnOk result (page.new ≡ page.old ++ names_or_dash (names_of_mask table.now.parameters mask)) }
{
    if masked(page, table, mask)? {
        return page.text("-");
    }
    Ok(())
}

/// The parameters of a mask with commas between. Answers whether there is none.
pub(crate) fn masked(page: &mut Page, table: &EventTable, mask: u8) -> Result<bool, NoMemory>
    ensures written { OnOk result (page.new ≡ page.old ++ name_list (names_of_mask table.now.parameters mask)) }
    ensures none { IfOk result (λ none. none ≡ is_empty (names_of_mask table.now.parameters mask)) }
{
    let mut first = true;
    for p in 0..table.params() {
        if has(mask, p) {
            name(page, first, table.param_name(p))?;
            first = false;
        }
    }
    Ok(first)
}

/// Whether a mask has a parameter.
fn has(mask: u8, p: u8) -> bool
    requires { p < 8 }
    ensures { result ≡ (bit_at mask p == 1) }
{
    mask >> p & 1 == 1
}

/// A name, after a comma where it isn't the first.
pub(crate) fn name(page: &mut Page, first: bool, name: &str) -> Result<(), NoMemory>
    ensures { OnOk result (page.new ≡ page.old ++ (if first then [] else codes ",") ++ name.now) }
{
    if !first {
        page.text(",")?;
    }
    page.text(name)
}
