//! Running scripts over specifications.
ghost use Rattle.std.specs.Prelude.{◌≡◌, ◌<◌, ◌≤◌, map, IfOk};
ghost use Rattle.jm_sync.specs.Checks.{sync_of};
ghost use Rattle.jm_top.specs.Histories.{IsTextOfOrdered, IsTextOfSummaries};
ghost use Rattle.jm_inputs.specs.Reading.{specs_in};
ghost use Rattle.jm_top.specs.Runs.{CanRunOver, IsWatchOf, AreWatchesOf, AreRunsOf};
ghost use Rattle.jm_script.specs.Catalogs.{most_scripts};

use crate::histories::{ended_of, histories_text, summaries_text};
use jm_core::Prop;
use jm_dispatch::Watch;
use jm_events::Names;
use jm_inputs::{CompiledSpec, Scripts, SpecHeader, SpecSet};
use jm_machine::Rules;
use jm_model::NoMemory;
use jm_runner::{Gate, Running, run_queues};
use jm_script::{Catalog, CompactScript, LineQueue};
use std::alloc::Global;
use std::sync::Wait;
use std::thread::Threads;

/// The printed histories of the specifications, over which the scripts run in the order that they ask for. For the
/// printing nothing is left of the scripts but the names of the objects, and of each core its rules and its history.
pub(crate) fn run<R: Threads + Wait + Sync, G: Gate>(
    rt: &R,
    alloc: Global,
    spec_set: SpecSet,
    scripts: Scripts,
    gate: &G,
) -> Result<Vec<u8>, NoMemory>
    requires ready { CanRunOver spec_set scripts }
    ensures { IfOk result (λ text. IsTextOfOrdered (specs_in spec_set) scripts.list.items
        (sync_of scripts.cuts.items) scripts.objects text.items) }
{
    let runs = run_all(rt, alloc, spec_set, scripts, gate)?;
    let Runs {
        catalog,
        headers,
        props,
        objects,
    } = runs;
    let ended = ended_of(alloc, props)?;
    histories_text(
        alloc,
        &catalog,
        headers.as_slice(),
        ended.as_slice(),
        &objects,
    )
}

/// The summaries of the specifications' histories, over which the scripts run.
pub(crate) fn run_in_short<R: Threads + Wait + Sync, G: Gate>(
    rt: &R,
    alloc: Global,
    spec_set: SpecSet,
    scripts: Scripts,
    gate: &G,
) -> Result<Vec<u8>, NoMemory>
    requires ready { CanRunOver spec_set scripts }
    ensures { IfOk result (λ text. IsTextOfSummaries (specs_in spec_set) scripts.list.items text.items) }
{
    let runs = run_all(rt, alloc, spec_set, scripts, gate)?;
    summaries_text(alloc, &runs.catalog, runs.props.as_slice())
}

/// The catalog of the specifications, the header of each, and its core after the run; and the names of the scripts'
/// objects.
#[derive(Drop)]
pub(crate) struct Runs {
    pub catalog: Catalog,
    pub headers: Vec<SpecHeader>,
    pub props: Vec<Prop<Rules>>,
    pub objects: Names,
}

/// Runs the scripts over the specifications. The lines of the scripts are let go as they are done.
pub(crate) fn run_all<R: Threads + Wait + Sync, G: Gate>(
    rt: &R,
    alloc: Global,
    spec_set: SpecSet,
    scripts: Scripts,
    gate: &G,
) -> Result<Runs, NoMemory>
    requires ready { CanRunOver spec_set scripts }
    ensures catalog { IfOk result (λ runs. runs.catalog ≡ spec_set.catalog) }
    ensures ran { IfOk result (λ runs. AreRunsOf spec_set.specs.items scripts.list.items
        (sync_of scripts.cuts.items) runs.headers.items runs.props.items) }
    ensures objects { IfOk result (λ runs. runs.objects ≡ scripts.objects) }
{
    let SpecSet { specs, catalog } = spec_set;
    let Scripts {
        list,
        objects,
        cuts,
        ..
    } = scripts;
    let seats = list.len() as u32;
    let queues = queues_of(alloc, list)?;
    let made = dispatchers(alloc, specs, objects.len(), seats)?;
    let NamedDispatchers { headers, watches } = made;
    let props = run_queues(rt, alloc, watches, queues, cuts.as_slice(), gate)?;
    Ok(Runs {
        catalog,
        headers,
        props,
        objects,
    })
}

/// The lines of each script in a queue.
fn queues_of(alloc: Global, scripts: Vec<CompactScript>) -> Result<Vec<LineQueue>, NoMemory>
    ensures { IfOk result (λ queues. queues.items ≡ scripts.items) }
{
    let mut queues = Vec::new(alloc);
    for script in scripts {
        queues.push(script.into_queue()?)?;
    }
    Ok(queues)
}

/// The header of each specification, and its dispatcher with a seat for each script.
#[derive(Drop)]
struct NamedDispatchers {
    headers: Vec<SpecHeader>,
    watches: Vec<Running<Rules>>,
}

/// A dispatcher for each specification.
fn dispatchers(
    alloc: Global,
    specs: Vec<CompiledSpec>,
    objects: u32,
    seats: u32,
) -> Result<NamedDispatchers, NoMemory>
    requires { (1 ≤ seats) × (seats ≤ most_scripts) }
    ensures headers { IfOk result (λ w. w.headers.items ≡ map (λ l. l.header) specs.items) }
    ensures watches { IfOk result (λ w. AreWatchesOf objects seats specs.items (map (λ r. r.watch) w.watches.items)
        (map (λ r. r.seats.items) w.watches.items)) }
{
    let mut headers = Vec::new(alloc);
    let mut watches = Vec::new(alloc);
    for compiled in specs {
        let CompiledSpec { header: own, rules } = compiled;
        let watch = dispatcher(alloc, rules, objects, seats)?;
        watches.push(watch)?;
        headers.push(own)?;
    }
    Ok(NamedDispatchers { headers, watches })
}

/// A dispatcher by these rules, with its seats.
fn dispatcher(
    alloc: Global,
    rules: Rules,
    objects: u32,
    seats: u32,
) -> Result<Running<Rules>, NoMemory>
    requires { (1 ≤ seats) × (seats ≤ most_scripts) }
    ensures { IfOk result (λ r. IsWatchOf objects seats rules r.watch r.seats.items) }
{
    let (watch, seats) = Watch::new(alloc, rules, objects, seats)?;
    Ok(Running { watch, seats })
}
