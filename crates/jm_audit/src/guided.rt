//! The audit: one allowed text is written under the guidance of the given one, and both are compared.
ghost use Rattle.std.specs.Prelude.{◌≡◌, ◌≤◌, ◌<◌, ◌+◌, [], length, option_map, ℕ, List, IfOk};
ghost use Rattle.jm_model.specs.declared.step.Entry.{Entry as HistoryEntry};
ghost use Rattle.jm_audit.specs.Allowed.{IsAllowed, steps_on};
ghost use Rattle.jm_audit.specs.Places.{before, within, IsWritten, AreAllDone};
ghost use Rattle.jm_audit.specs.Sheets.{lexicon, FitSheets};
ghost use Rattle.jm_audit.specs.Verdicts.{IsVerdict};
ghost use Rattle.jm_script.specs.Catalogs.{most_scripts, most_specs};

use crate::block::{end_line, head_line, write_block};
use crate::compare::agreeing_lines;
use crate::progress::Progress;
use crate::sheet::Sheet;
use crate::verdict::Verdict;
use jm_events::Names;
use jm_model::{Monitor, NoMemory};
use jm_script::CompactScript;
use std::alloc::Global;

/// Whether a run of these scripts over the specifications may print the text, or else the first of its lines that no
/// run prints after those before it. There are at most 16 sheets and 16 scripts, and the scripts fit the sheets. The
/// only error is out of memory.
pub fn audit<M: Monitor>(
    alloc: Global,
    sheets: &[Sheet<M>],
    scripts: &[CompactScript],
    objects: &Names,
    text: &[u8],
) -> Result<Verdict, NoMemory>
    requires sheets { length sheets.now ≤ most_specs }
    requires scripts { length scripts.now ≤ most_scripts }
    requires fit { FitSheets (λ s. M.meaning (M.definition s.rules.now)) (lexicon objects.now) scripts.now sheets.now }
    ensures { IfOk result (λ verdict. IsVerdict (IsAllowed (λ s. M.meaning (M.definition s.rules.now))
        (lexicon objects.now) scripts.now sheets.now) text.now verdict) }
{
    let mut written = Vec::new(alloc);
    let mut rest = Some(text);
    for number in 0..sheets.len() {
        rest = write_history(
            alloc,
            sheets,
            number as u8,
            scripts,
            objects,
            rest,
            &mut written,
        )?;
    }
    if written.as_slice() == text {
        return Ok(Verdict::Yes);
    }
    let lines = agreeing_lines(written.as_slice(), text);
    Ok(Verdict::No { line: lines + 1 })
}

/// Writes the history of the sheet of this number. It answers what is left of the text after it, if the text goes on
/// with it.
fn write_history<'t, M: Monitor>(
    alloc: Global,
    sheets: &[Sheet<M>],
    number: u8,
    scripts: &[CompactScript],
    objects: &Names,
    rest: Option<&'t [u8]>,
    written: &mut Vec<u8>,
) -> Result<Option<&'t [u8]>, NoMemory>
    requires in_range { number < length sheets.now }
    requires scripts { length scripts.now ≤ most_scripts }
    requires fit { FitSheets (λ s. M.meaning (M.definition s.rules.now)) (lexicon objects.now) scripts.now sheets.now }
    ensures { IfOk result (λ left. (text : List ℕ)
        → IsWritten (λ s. M.meaning (M.definition s.rules.now)) (lexicon objects.now) scripts.now sheets.now
        text written.old.items (option_map (λ r. r.now) rest.entry) (before number)
        → IsWritten (λ s. M.meaning (M.definition s.rules.now)) (lexicon objects.now) scripts.now sheets.now
        text written.new.items (option_map (λ r. r.now) left) (before (number + 1))) }
{
    let sheet = &sheets[number as usize];
    let head = head_line(alloc, sheet.name)?;
    let rest = write_block(rest, written, head.as_slice())?;
    let (entries, rest) = write_entries(alloc, sheets, number, scripts, objects, rest, written)?;
    let end = end_line(alloc, entries)?;
    write_block(rest, written, end.as_slice())
}

/// Writes the entries of the history of the sheet of this number. The text chooses whose step comes next, as long as it
/// goes on with what is written. It answers how many entries there are, and what is left of the text.
fn write_entries<'t, M: Monitor>(
    alloc: Global,
    sheets: &[Sheet<M>],
    number: u8,
    scripts: &[CompactScript],
    objects: &Names,
    rest: Option<&'t [u8]>,
    written: &mut Vec<u8>,
) -> Result<(usize, Option<&'t [u8]>), NoMemory>
    requires in_range { number < length sheets.now }
    requires scripts { length scripts.now ≤ most_scripts }
    requires fit { FitSheets (λ s. M.meaning (M.definition s.rules.now)) (lexicon objects.now) scripts.now sheets.now }
    ensures { IfOk result (λ told. (h : List HistoryEntry) × (told.0 ≡ length h)
        × AreAllDone (steps_on scripts.now number) h
        × ((text : List ℕ)
        → IsWritten (λ s. M.meaning (M.definition s.rules.now)) (lexicon objects.now) scripts.now sheets.now
        text written.old.items (option_map (λ r. r.now) rest.entry) (within number [])
        → IsWritten (λ s. M.meaning (M.definition s.rules.now)) (lexicon objects.now) scripts.now sheets.now
        text written.new.items (option_map (λ r. r.now) told.1) (within number h))) }
{
    let sheet = &sheets[number as usize];
    let mut progress = Progress::new(alloc, sheet, number, scripts, objects)?;
    let mut rest = rest;
    while progress.left() > 0 {
        rest = progress.write_next(alloc, sheet, objects, rest, written)?;
    }
    Ok((progress.len(), rest))
}
