//! Two watches whose steps meet, under two scripts.
ghost use Rattle.std.specs.Prelude.{◌≡◌, ◌<◌, ◌≤◌, ◌^◌, ℕ, [], ◌∷◌, All, IfOk, IfSome, IsTrue, length};
ghost use Rattle.jm_semantics.specs.Scripts.{projection_of};
ghost use Rattle.jm_script.specs.Projections.{script_of};
ghost use Rattle.test_runner.specs.Meets.{FitsBoth, IsFresh, IsMeeting};

use crate::meet::Meet;
use jm_core::Prop;
use jm_dispatch::Watch;
use jm_events::Names;
use jm_model::{NoMemory, Step};
use jm_runner::{FreeGate, Running, run_scripts};
use jm_script::{Catalog, CompactScript, read_compact};
use std::alloc::Global;
use std::sync::atomic::{AtomicU64, Ordering};
use std::sync::{Arc, Wait};
use std::thread::Threads;
use testkit::{Case, put_line, text_of};
use testkit_steps::entry_shown;
use testkit_tokens::table_of;

/// Runs the two scripts of the case, one a line, over two watches whose steps meet, and shows the histories and how
/// many steps waited in vain.
pub(crate) fn both<R: Threads + Wait + Sync>(
    rt: &R,
    alloc: Global,
    case: &Case,
) -> Result<String, NoMemory> {
    let Some((first, second)) = text_of(case.text.as_slice()).split_once('\n') else {
        return Ok(String::from_str(alloc, "no two scripts")?);
    };
    let Some((first, second)) = scripts(alloc, first, second) else {
        return Ok(String::from_str(alloc, "no two scripts")?);
    };
    let missed = Arc::new(alloc, AtomicU64::new(0))?;
    let props = run_both(rt, alloc, first, second, &missed)?;
    let missed = missed.load(Ordering::SeqCst);
    shown(alloc, format!(in alloc; "{missed} missed")?, &props)
}

/// Puts the histories after a text, line by line.
pub(crate) fn shown(
    alloc: Global,
    mut text: String,
    props: &[Prop<Meet>],
) -> Result<String, NoMemory> {
    for prop in props {
        for entry in &prop.history().to_list(alloc)? {
            put_line(&mut text, entry_shown(alloc, entry)?.as_str())?;
        }
    }
    Ok(text)
}

/// The scripts of two texts, over specifications `A` and `B` with an event `go` of one object.
pub(crate) fn scripts(
    alloc: Global,
    first: &str,
    second: &str,
) -> Option<(CompactScript, CompactScript)>
    ensures { IfSome result (λ r. FitsBoth r.0 × FitsBoth r.1) }
{
    let catalog = two_specifications(alloc)?;
    let first = script(alloc, first, &catalog)?;
    let second = script(alloc, second, &catalog)?;
    Some((first, second))
}

fn two_specifications(alloc: Global) -> Option<Catalog> {
    let mut catalog = Catalog::new(alloc);
    let Ok(_) = catalog.add("A", table_of(alloc, "p go=1").ok()?) else {
        return None;
    };
    let Ok(_) = catalog.add("B", table_of(alloc, "p go=1").ok()?) else {
        return None;
    };
    Some(catalog)
}

/// A script that fits both specifications.
fn script(alloc: Global, text: &str, catalog: &Catalog) -> Option<CompactScript>
    ensures { IfSome result (λ script. FitsBoth script) }
{
    if text.len() > 1000 {
        return None;
    }
    let mut objects = Names::new(alloc);
    let mut count = 0;
    let Ok(script) = read_compact(alloc, text.as_bytes(), catalog, &mut objects, &mut count) else {
        return None;
    };
    if objects.len() > 2 {
        return None;
    }
    if !meets(alloc, &script, 0)? {
        return None;
    }
    if !meets(alloc, &script, 1)? {
        return None;
    }
    Some(script)
}

/// Whether each step that the script has for the specification is one that meets.
fn meets(alloc: Global, script: &CompactScript, spec: u8) -> Option<bool>
    ensures { IfSome result (λ r. IsTrue r → All (λ p. IsMeeting p.1) (projection_of (script_of script.now) spec)) }
{
    let Ok(steps) = script.steps(alloc, spec) else {
        return None;
    };
    Some(steps.iter().all(|step| meets_step(&step.1)))
}

fn meets_step(step: &Step) -> bool
    ensures { IsTrue result → IsMeeting step.now }
{
    match step {
        Step::Event { letter, binding } => letter.0 == 0 && binding.mask() == 1,
        _ => true,
    }
}

fn run_both<R: Threads + Wait + Sync>(
    rt: &R,
    alloc: Global,
    first: CompactScript,
    second: CompactScript,
    missed: &Arc<AtomicU64, Global>,
) -> Result<Vec<Prop<Meet>>, NoMemory>
    requires { FitsBoth first × FitsBoth second }
{
    let flags = (
        Arc::new(alloc, AtomicU64::new(0))?,
        Arc::new(alloc, AtomicU64::new(0))?,
    );
    let one = watched(alloc, meet(&flags.0, &flags.1, missed)?)?;
    let two = watched(alloc, meet(&flags.1, &flags.0, missed)?)?;
    let watches = pair(alloc, one, two)?;
    let scripts = pair(alloc, first, second)?;
    run_scripts(rt, alloc, watches, scripts.as_slice(), &FreeGate)
}

pub(crate) fn meet(
    own: &Arc<AtomicU64, Global>,
    other: &Arc<AtomicU64, Global>,
    missed: &Arc<AtomicU64, Global>,
) -> Result<Meet, NoMemory> {
    Ok(Meet {
        own: Arc::try_clone(own)?,
        other: Arc::try_clone(other)?,
        missed: Arc::try_clone(missed)?,
    })
}

/// A watch for two callers, over two objects.
pub(crate) fn watched(alloc: Global, meet: Meet) -> Result<Running<Meet>, NoMemory>
    ensures { IfOk result (λ r. IsFresh r.watch r.seats.items) }
{
    let (watch, seats) = Watch::new(alloc, meet, 2, 2)?;
    Ok(Running { watch, seats })
}

pub(crate) fn pair<T: Drop>(alloc: Global, first: T, second: T) -> Result<Vec<T>, NoMemory>
    ensures { IfOk result (λ v. v.items ≡ first ∷ second ∷ []) }
{
    let mut both = Vec::new(alloc);
    both.push(first)?;
    both.push(second)?;
    Ok(both)
}
