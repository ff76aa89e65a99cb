//! Two scripts that ask for order, over two watches.
ghost use Rattle.std.specs.Prelude.{◌≡◌, ◌<◌, ◌-◌, ◌^◌, All, IfOk, length, vec_len};
ghost use Rattle.jm_sync.specs.Checks.{AreSound, sync_of};
ghost use Rattle.jm_sync.specs.Cuts.{RisesFrom};
ghost use Rattle.test_runner.specs.Meets.{FitsBoth};

use crate::both::{meet, pair, scripts, shown, watched};
use crate::meet::Meet;
use jm_core::Prop;
use jm_events::Names;
use jm_model::NoMemory;
use jm_runner::{FreeGate, run_with_notes};
use jm_script::CompactScript;
use jm_sync::{Cut, check, cut};
use std::alloc::Global;
use std::sync::atomic::AtomicU64;
use std::sync::{Arc, Wait};
use std::thread::Threads;
use testkit::{Case, text_of};

/// Runs the two scripts of the case, which a line `/` parts, and shows the histories.
pub(crate) fn noted<R: Threads + Wait + Sync>(
    rt: &R,
    alloc: Global,
    case: &Case,
) -> Result<String, NoMemory> {
    let Some((first, second)) = text_of(case.text.as_slice()).split_once("\n/\n") else {
        return Ok(String::from_str(alloc, "no two scripts")?);
    };
    let mut names = Names::new(alloc);
    let first = cut_small(alloc, first.as_bytes(), &mut names)?;
    let second = cut_small(alloc, second.as_bytes(), &mut names)?;
    let Some((one, two)) = scripts(alloc, text_of(&first.rest), text_of(&second.rest)) else {
        return Ok(String::from_str(alloc, "no two scripts")?);
    };
    run_noted(rt, alloc, one, two, first, second)
}

/// Cuts a script that isn't long, where there are not many names.
fn cut_small(alloc: Global, bytes: &[u8], names: &mut Names) -> Result<Cut, NoMemory>
    ensures rising { IfOk result (λ cut. RisesFrom 1 cut.lines.items) }
    ensures named { IfOk result (λ cut. All (λ l. l.name < 2 ^ 32 - 1) cut.lines.items) }
{
    if bytes.len() > 4_000_000 || names.len() > 1_000_000 {
        return Err(NoMemory);
    }
    cut(alloc, bytes, names)
}

fn run_noted<R: Threads + Wait + Sync>(
    rt: &R,
    alloc: Global,
    one: CompactScript,
    two: CompactScript,
    first: Cut,
    second: Cut,
) -> Result<String, NoMemory>
    requires fits { FitsBoth one × FitsBoth two }
    requires first { RisesFrom 1 first.lines.items × All (λ l. l.name < 2 ^ 32 - 1) first.lines.items }
    requires second { RisesFrom 1 second.lines.items × All (λ l. l.name < 2 ^ 32 - 1) second.lines.items }
{
    let cuts = pair(alloc, first, second)?;
    let Ok(()) = check(alloc, &cuts) else {
        return Ok(String::from_str(alloc, "no such order")?);
    };
    let scripts = pair(alloc, one, two)?;
    // No step waits for another: each finds its own flag set.
    let missed = Arc::new(alloc, AtomicU64::new(0))?;
    let flags = (
        Arc::new(alloc, AtomicU64::new(0))?,
        Arc::new(alloc, AtomicU64::new(0))?,
    );
    let a = watched(alloc, meet(&flags.0, &flags.0, &missed)?)?;
    let b = watched(alloc, meet(&flags.1, &flags.1, &missed)?)?;
    let watches = pair(alloc, a, b)?;
    let props = run_with_notes(rt, alloc, watches, scripts.as_slice(), &cuts, &FreeGate)?;
    shown(alloc, String::from_str(alloc, "in order")?, &props)
}
