//! Whether scripts can be run in the order that they ask for.
ghost use Rattle.std.specs.Prelude.{◌<◌, ◌^◌, IfOk, IfErr, OnOk, length};
ghost use Rattle.jm_sync.specs.Checks.{AreFew, ArePostedOnce, AreRefused, AreSound, sync_of};
ghost use Rattle.jm_sync.specs.Walks.{GoesOver, IsCountError, IsPostError};

use crate::error::SyncError;
use crate::line::{Cut, SyncKind, SyncLine};
use crate::numbers::NameNumbers;
use crate::reach::check_reach;
use jm_model::{NoMemory, ScriptFault};
use std::alloc::Global;

/// How many lines may ask for order, in all scripts.
const MOST_NOTES: usize = 65_536;

/// Checks what scripts ask for. The fault is the first of these, each in the order of scripts and lines: `TooManyNotes`
/// at the 65,537th line of all scripts, `DuplicatePost` where a name is posted a second time, and `Stuck` at the first
/// line that can't be come to, in the first script that has one. A line can be come to if all lines above it in its
/// script can be, and, where it waits, some post of its name can be too.
pub fn check(alloc: Global, scripts: &[Cut]) -> Result<(), SyncError>
    requires { length scripts.now < 2 ^ 32 }
    ensures ok { OnOk result (AreSound (sync_of scripts.now)) }
    ensures err { IfErr result (AreRefused (sync_of scripts.now)) }
{
    check_count(scripts)?;
    check_posts(alloc, scripts)?;
    check_reach(alloc, scripts)
}

/// Whether there are not too many lines.
fn check_count(scripts: &[Cut]) -> Result<(), SyncError>
    requires { length scripts.now < 2 ^ 32 }
    ensures ok { OnOk result (AreFew (sync_of scripts.now)) }
    ensures err { IfErr result (IsCountError (sync_of scripts.now)) }
{
    let mut room = MOST_NOTES;
    for (k, cut) in scripts.iter().enumerate() {
        let lines = &cut.lines;
        if room < lines.len() {
            let line = lines[room].line;
            return Err(SyncError::bad(k, ScriptFault::TooManyNotes { line }));
        }
        room -= lines.len();
    }
    Ok(())
}

/// Whether no name is posted twice.
fn check_posts(alloc: Global, scripts: &[Cut]) -> Result<(), SyncError>
    requires { length scripts.now < 2 ^ 32 }
    ensures ok { OnOk result (ArePostedOnce (sync_of scripts.now)) }
    ensures err { IfErr result (IsPostError (sync_of scripts.now)) }
{
    let mut posted = NameNumbers::new(alloc);
    for (k, cut) in scripts.iter().enumerate() {
        if let Some(line) = second_post(&cut.lines, &mut posted)? {
            return Err(SyncError::bad(k, ScriptFault::DuplicatePost { line }));
        }
    }
    Ok(())
}

/// The number of the first line that posts a name which is posted already, if there is one.
fn second_post(lines: &[SyncLine], posted: &mut NameNumbers) -> Result<Option<u32>, NoMemory>
    ensures { IfOk result (λ number. GoesOver posted.old lines.now number posted.new) }
{
    for line in lines {
        let SyncKind::Post = line.kind else {
            continue;
        };
        if posted.contains(line.name) {
            return Ok(Some(line.line));
        }
        posted.add(line.name)?;
    }
    Ok(None)
}
