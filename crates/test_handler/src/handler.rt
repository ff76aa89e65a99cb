//! What a block prints.
use crate::scene::{Scene, are_named, scene_of, table_of};
use jm_events::EventTable;
use jm_handler::{Handler, read_handler};
use jm_model::SpecError;
use jm_text::tokens;
use std::alloc::Global;
use testkit::Case;

/// The text of the block for the scene, or `nothing`.
pub(crate) fn print(alloc: Global, case: &Case) -> Result<String, SpecError> {
    let text = text_of(alloc, case)?;
    let shown = std::str::from_utf8(text.as_slice()).unwrap_or("not UTF-8");
    match shown.strip_suffix('\n') {
        Some(lines) => Ok(String::from_str(alloc, lines)?),
        None => Ok(String::from_str(alloc, "nothing")?),
    }
}

/// How many lines and bytes the text has.
pub(crate) fn count(alloc: Global, case: &Case) -> Result<String, SpecError> {
    let text = text_of(alloc, case)?;
    let lines = text.iter().filter(|byte| **byte == b'\n').count();
    Ok(format!(in alloc; "{lines} lines, {} bytes", text.len())?)
}

/// The text of the case's block, where the specification has the parameters of its first words, for the scene that its
/// other words say.
fn text_of(alloc: Global, case: &Case) -> Result<Vec<u8>, SpecError> {
    let table = table_of(alloc, case.first.as_str())?;
    let scene = scene_of(alloc, &table, case.second.as_str())?;
    let handler = handler_of(alloc, case.text.as_slice(), &table)?;
    rendered(alloc, &handler, &scene)
}

/// What the bytes of a block say.
fn handler_of(alloc: Global, bytes: &[u8], table: &EventTable) -> Result<Handler, SpecError> {
    if bytes.len() > 100_000_000 {
        return Err(SpecError::NoMemory);
    }
    let tokens = tokens(alloc, bytes)?;
    Ok(read_handler(alloc, bytes, tokens.as_slice(), table)?)
}

fn rendered(alloc: Global, handler: &Handler, scene: &Scene) -> Result<Vec<u8>, SpecError> {
    if are_named(&scene.objects, &scene.instance) {
        let text = handler.render(
            alloc,
            &scene.instance,
            &scene.objects,
            scene.caller,
            scene.line,
        )?;
        Ok(text)
    } else {
        Ok(Vec::new(alloc))
    }
}
