//! What is written of a history, block by block.
ghost use Rattle.std.specs.Prelude.{◌≡◌, ◌++◌, codes, option_map, IfOk, OnOk};
ghost use Rattle.jm_audit.specs.Places.{IsLeftBehind, end_text};

use crate::compare::left_behind;
use itoa::Buffer;
use jm_model::NoMemory;
use std::alloc::Global;

/// Writes a block. It answers what is left of the text after it, if the text goes on with it.
pub(crate) fn write_block<'t>(
    rest: Option<&'t [u8]>,
    written: &mut Vec<u8>,
    block: &[u8],
) -> Result<Option<&'t [u8]>, NoMemory>
    ensures written { OnOk result (written.new.items ≡ written.old.items ++ block.now) }
    ensures left { IfOk result (λ left. IsLeftBehind block.now (option_map (λ r. r.now) rest.entry)
        (option_map (λ r. r.now) left)) }
{
    written.extend_from_slice(block)?;
    Ok(left_behind(rest, block))
}

/// The first line of a history.
pub(crate) fn head_line(alloc: Global, name: &str) -> Result<Vec<u8>, NoMemory>
    ensures { IfOk result (λ line. line.items ≡ codes "spec " ++ name.now ++ codes "\n") }
{
    let mut line = Vec::from_slice(alloc, b"spec ")?;
    line.extend_from_slice(name.as_bytes())?;
    line.extend_from_slice(b"\n")?;
    Ok(line)
}

/// The last line of a history with the given number of entries.
pub(crate) fn end_line(alloc: Global, entries: usize) -> Result<Vec<u8>, NoMemory>
    ensures { IfOk result (λ line. line.items ≡ end_text entries) }
{
    let mut buffer = Buffer::new();
    let mut line = Vec::from_slice(alloc, b"end ")?;
    line.extend_from_slice(buffer.format(entries).as_bytes())?;
    line.extend_from_slice(b"\n")?;
    Ok(line)
}
