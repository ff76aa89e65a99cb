//! Scripts with lines that take less memory: their lines by place and one by one, and their steps at once and block by
//! block.
ghost use Rattle.std.specs.Prelude.{◌<◌, length};

use crate::catalog::catalog_of;
use crate::script::{steps_shown, target_shown, with_line_feeds};
use jm_events::Names;
use jm_model::{NoMemory, ScriptError, SpecError};
use jm_script::{Block, Catalog, CompactScript, read_compact};
use std::alloc::{AllocError, Global};
use testkit::Case;

/// The lines of a script, and after a `/` its steps for a specification.
pub(crate) fn compact(alloc: Global, case: &Case) -> Result<String, SpecError> {
    let catalog = catalog_of(alloc, case.first.as_str())?;
    let spec = case.second.parse::<u8>().unwrap_or(255);
    match read(alloc, case, &catalog) {
        Ok(script) => Ok(shown(alloc, &script, spec)?),
        Err(fault) => Ok(format!(in alloc; "{fault:?}")?),
    }
}

fn read(alloc: Global, case: &Case, catalog: &Catalog) -> Result<CompactScript, ScriptError> {
    let bytes = with_line_feeds(alloc, case.text.as_slice())?;
    if bytes.len() > 4_000_000 {
        return Err(ScriptError::NoMemory);
    }
    read_compact(
        alloc,
        bytes.as_slice(),
        catalog,
        &mut Names::new(alloc),
        &mut 0,
    )
}

fn shown(alloc: Global, script: &CompactScript, spec: u8) -> Result<String, NoMemory> {
    let mut out = String::new(alloc);
    for place in 0..script.len() {
        put_line(alloc, &mut out, script, place)?;
    }
    out.push('/')?;
    let steps = script.steps(alloc, spec)?;
    out.push_str(steps_shown(alloc, &steps)?.as_str())?;
    Ok(out)
}

fn put_line(
    alloc: Global,
    out: &mut String,
    script: &CompactScript,
    place: usize,
) -> Result<(), AllocError>
    requires { place < length script.now }
{
    let target = target_shown(alloc, &script.line(place).target)?;
    let one = format!(in alloc; "{}:{target};", script.number(place))?;
    out.push_str(one.as_str())
}

/// How many lines a script has, and how many steps for a specification, both block by block; then the numbers of the
/// lines at some places.
pub(crate) fn blocks(alloc: Global, case: &Case) -> Result<String, SpecError> {
    let catalog = catalog_of(alloc, case.first.as_str())?;
    let spec = case.second.parse::<u8>().unwrap_or(255);
    match read(alloc, case, &catalog) {
        Ok(script) => Ok(counted(alloc, script, spec)?),
        Err(fault) => Ok(format!(in alloc; "{fault:?}")?),
    }
}

fn counted(alloc: Global, script: CompactScript, spec: u8) -> Result<String, NoMemory> {
    let mut numbers = String::new(alloc);
    for place in [0, 16_383, 16_384, 32_767, 32_768] {
        put_number(alloc, &mut numbers, &script, place)?;
    }
    let mut lines = 0usize;
    let mut steps = Vec::new(alloc);
    for block in script.into_blocks()? {
        lines = lines.wrapping_add(block.len());
        block.add_steps(spec, &mut steps)?;
        put_first(alloc, &mut numbers, &block)?;
    }
    Ok(format!(in alloc; "{lines} {}{numbers}", steps.len())?)
}

fn put_number(
    alloc: Global,
    out: &mut String,
    script: &CompactScript,
    place: usize,
) -> Result<(), AllocError> {
    if place < script.len() {
        let one = format!(in alloc; " {}", script.number(place))?;
        out.push_str(one.as_str())?;
    }
    Ok(())
}

/// Puts the number of a block's first line, and that of the line itself.
fn put_first(alloc: Global, out: &mut String, block: &Block) -> Result<(), AllocError> {
    if block.len() > 0 {
        let one = format!(in alloc; " {}={}", block.number(0), block.line(0).line)?;
        out.push_str(one.as_str())?;
    }
    Ok(())
}

/// The lines of a script that are taken above a line, and after a `/` the numbers of those that are left.
pub(crate) fn queue(alloc: Global, case: &Case) -> Result<String, SpecError> {
    let catalog = catalog_of(alloc, case.first.as_str())?;
    let number = case.second.parse::<u32>().unwrap_or(0);
    match read(alloc, case, &catalog) {
        Ok(script) => Ok(taken(alloc, &script, number)?),
        Err(fault) => Ok(format!(in alloc; "{fault:?}")?),
    }
}

fn taken(alloc: Global, script: &CompactScript, number: u32) -> Result<String, NoMemory> {
    let mut queue = script.copy(alloc)?.into_queue()?;
    let mut out = String::new(alloc);
    for _place in 0..script.len() {
        let Some(line) = queue.pop_above(Some(number)) else {
            break;
        };
        let target = target_shown(alloc, &line.target)?;
        out.push_str(format!(in alloc; "{}:{target};", line.line)?.as_str())?;
    }
    out.push('/')?;
    for _place in 0..script.len() {
        let Some(line) = queue.pop_above(None) else {
            break;
        };
        out.push_str(format!(in alloc; "{};", line.line)?.as_str())?;
    }
    Ok(out)
}
