//! Scripts that ask for order: what is cut of them, and whether they can be run so.
ghost use Rattle.std.specs.Prelude.{◌≤◌, length};

use jm_events::Names;
use jm_model::NoMemory;
use jm_sync::{Cut, SyncError, SyncKind, check, cut};
use std::alloc::Global;

/// What the lines of a script ask for, its other lines with a `/` in the place of a line feed and a `~` in that of a
/// carriage return, and the names.
pub(crate) fn cut_text(alloc: Global, bytes: &[u8]) -> Result<String, NoMemory> {
    let mut names = Names::new(alloc);
    let cut = cut_small(alloc, bytes, &mut names)?;
    let mut out = String::new(alloc);
    for line in &cut.lines {
        let kind = match line.kind {
            SyncKind::Post => "post",
            SyncKind::Wait => "wait",
        };
        let one = format!(in alloc; "{} {kind} {}, ", line.line, line.name)?;
        out.push_str(one.as_str())?;
    }
    for byte in &cut.rest {
        out.push(shown(*byte))?;
    }
    for number in 0..names.len() {
        out.push(' ')?;
        out.push_str(names.name(number))?;
    }
    Ok(out)
}

fn shown(byte: u8) -> char {
    match byte {
        b'\n' => '/',
        b'\r' => '~',
        _ => char::from(byte),
    }
}

/// Whether scripts can be run in the order that they ask for, or what is wrong with them.
pub(crate) fn checked(alloc: Global, scripts: &[&[u8]]) -> Result<String, NoMemory>
    requires { length scripts.now ≤ 16 }
{
    let mut names = Names::new(alloc);
    let mut cuts = Vec::new(alloc);
    for bytes in scripts {
        let cut = cut_small(alloc, bytes, &mut names)?;
        cuts.push(cut)?;
    }
    match check(alloc, &cuts) {
        Ok(()) => Ok(String::from_str(alloc, "in order")?),
        Err(SyncError::Bad { script, fault }) => {
            Ok(format!(in alloc; "script {script}: {fault:?}")?)
        }
        Err(SyncError::NoMemory) => Err(NoMemory),
    }
}

/// Cuts a script that isn't long, where there are not many names.
fn cut_small(alloc: Global, bytes: &[u8], names: &mut Names) -> Result<Cut, NoMemory> {
    if bytes.len() > 4_000_000 || names.len() > 1_000_000 {
        return Err(NoMemory);
    }
    cut(alloc, bytes, names)
}

/// So many lines that post a name each, and these lines after them.
pub(crate) fn many(alloc: Global, count: u32, last: &[u8]) -> Result<Vec<u8>, NoMemory> {
    let mut out = Vec::new(alloc);
    for number in 0..count {
        let line = format!(in alloc; "post n{number}\n")?;
        out.extend_from_slice(line.as_bytes())?;
    }
    out.extend_from_slice(last)?;
    Ok(out)
}
