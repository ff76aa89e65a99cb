//! What answers show of tables.

ghost use Rattle.std.specs.Prelude.{◌≡◌, ◌<◌, length};

use jm_model::{Letter, SpecError};
use jm_table::Table;
use std::alloc::{AllocError, Global};
use testkit::put_number;

/// How many states a table and its minimal table have.
pub(crate) fn counts_text(alloc: Global, table: Table) -> Result<String, SpecError> {
    let before = table.len();
    let table = table.minimise()?;
    Ok(format!(in alloc; "{before} {}", table.len())?)
}

/// Each state, where its letters lead, and after a colon the groups that it is in.
pub(crate) fn table_text(alloc: Global, table: &Table) -> Result<String, AllocError>
    requires { length table.now.groups ≡ 2 }
{
    let mut out = String::new(alloc);
    for state in 0..table.len() {
        if state > 0 {
            out.push('\n')?;
        }
        put_number(&mut out, alloc, "", state)?;
        add_next(&mut out, alloc, table, state)?;
        out.push(':')?;
        add_groups(&mut out, table, state)?;
    }
    Ok(out)
}

fn add_next(out: &mut String, alloc: Global, table: &Table, state: u16) -> Result<(), AllocError>
    requires { state < table.now.states }
{
    for letter in 0..table.letters() {
        let next = table.next(state, Letter(letter));
        put_number(out, alloc, " ", next)?;
    }
    Ok(())
}

fn add_groups(out: &mut String, table: &Table, state: u16) -> Result<(), AllocError>
    requires state { state < table.now.states }
    requires groups { length table.now.groups ≡ 2 }
{
    if table.in_group(state, 0) {
        out.push_str(" 0")?;
    }
    if table.in_group(state, 1) {
        out.push_str(" 1")?;
    }
    Ok(())
}
