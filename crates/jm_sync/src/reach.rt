//! Which lines can be come to, where scripts wait for what others post.
ghost use Rattle.std.specs.Prelude.{ℕ, ◌≡◌, ◌<◌, ◌^◌, ◌↔◌, IfOk, IfErr, IfSome, IsNone, IsTrue, OnOk, length, slice_index};
ghost use Rattle.jm_sync.specs.Checks.{AreReachable, sync_of};
ghost use Rattle.jm_sync.specs.Walks.{CanPass, IsAtEnd, IsFrontError, IsOpen, IsReachError, posted_past};

use crate::error::SyncError;
use crate::line::{Cut, SyncKind, SyncLine};
use crate::numbers::NameNumbers;
use jm_model::{NoMemory, ScriptFault};
use std::alloc::Global;

/// Whether each line can be come to. Each script has a front, and the lines above it can be come to. While some front
/// can pass its line, it does.
pub(crate) fn check_reach(alloc: Global, scripts: &[Cut]) -> Result<(), SyncError>
    requires { length scripts.now < 2 ^ 32 }
    ensures ok { OnOk result (AreReachable (sync_of scripts.now)) }
    ensures err { IfErr result (IsReachError (sync_of scripts.now)) }
{
    let mut fronts = first_fronts(alloc, scripts.len())?;
    let mut posted = NameNumbers::new(alloc);
    while let Some(k) = movable(scripts, &fronts, &posted) {
        let line = scripts[k].lines[fronts[k]];
        pass(line, &mut posted)?;
        fronts[k] += 1;
    }
    find_stuck(scripts, &fronts)
}

/// So many fronts, each at its script's first line.
fn first_fronts(alloc: Global, count: usize) -> Result<Vec<usize>, NoMemory>
    ensures count { IfOk result (λ fronts. length fronts.items ≡ count) }
    ensures first { IfOk result (λ fronts. (k : ℕ) → slice_index fronts.items k ≡ 0) }
{
    let mut fronts = Vec::with_capacity(alloc, count)?;
    for _script in 0..count {
        fronts.push(0)?;
    }
    Ok(fronts)
}

/// The first script whose front can pass its line, if there is one.
fn movable(scripts: &[Cut], fronts: &[usize], posted: &NameNumbers) -> Option<usize>
    requires { length fronts.now ≡ length scripts.now }
    ensures within { IfSome result (λ k. k < length scripts.now) }
    ensures can { IfSome result (CanPass (sync_of scripts.now) fronts.now posted.now) }
    ensures none { IsNone result → (k : ℕ) → CanPass (sync_of scripts.now) fronts.now posted.now k → ⊥ }
{
    for (k, cut) in scripts.iter().enumerate() {
        if is_open(&cut.lines, fronts[k], posted) {
            return Some(k);
        }
    }
    None
}

/// Whether the line at the front can be passed: it doesn't wait, or its name is posted.
fn is_open(lines: &[SyncLine], front: usize, posted: &NameNumbers) -> bool
    ensures { IsTrue result ↔ IsOpen lines.now front posted.now }
{
    match lines.get(front) {
        Some(line) => line.kind == SyncKind::Post || posted.contains(line.name),
        None => false,
    }
}

/// A line is passed: the name that it posts is posted then.
fn pass(line: SyncLine, posted: &mut NameNumbers) -> Result<(), NoMemory>
    ensures { OnOk result (posted.new ≡ posted_past posted.old line.kind line.name) }
{
    match line.kind {
        SyncKind::Post => posted.add(line.name),
        SyncKind::Wait => Ok(()),
    }
}

/// The first front that hasn't come to the end of its script is stuck there.
fn find_stuck(scripts: &[Cut], fronts: &[usize]) -> Result<(), SyncError>
    requires counted { length fronts.now ≡ length scripts.now }
    requires bounded { length scripts.now < 2 ^ 32 }
    ensures ok { OnOk result ((k : ℕ) → IsAtEnd (sync_of scripts.now) fronts.now k) }
    ensures err { IfErr result (IsFrontError (sync_of scripts.now) fronts.now) }
{
    for (k, cut) in scripts.iter().enumerate() {
        if let Some(stuck) = cut.lines.get(fronts[k]) {
            let line = stuck.line;
            return Err(SyncError::bad(k, ScriptFault::Stuck { line }));
        }
    }
    Ok(())
}
