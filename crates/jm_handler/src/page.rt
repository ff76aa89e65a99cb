//! Lines that are marked as a handler's.
ghost use Rattle.std.specs.Prelude.{◌≡◌, ◌++◌, decimal, OnOk};
ghost use Rattle.jm_handler.specs.Broken.{broken};

use itoa::Buffer;
use jm_model::NoMemory;

/// Goes on with a text. At each of its line breaks the line ends, and another begins.
pub(crate) fn text(page: &mut Vec<u8>, text: &[u8]) -> Result<(), NoMemory>
    ensures { OnOk result (page.new.items ≡ page.old.items ++ broken text.now) }
{
    if !text.contains(&b'\n') {
        return Ok(page.extend_from_slice(text)?);
    }
    for byte in text {
        if *byte == b'\n' {
            page.extend_from_slice(b"\n  > ")?;
        } else {
            page.push(*byte)?;
        }
    }
    Ok(())
}

/// Goes on with a number, without leading zeros.
pub(crate) fn number(page: &mut Vec<u8>, number: u32) -> Result<(), NoMemory>
    ensures { OnOk result (page.new.items ≡ page.old.items ++ broken (decimal number)) }
{
    let mut buffer = Buffer::new();
    Ok(page.extend_from_slice(buffer.format(number).as_bytes())?)
}
