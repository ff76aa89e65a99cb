//! The text of each command.
ghost use Rattle.std.specs.Prelude.{map, string_bytes};
ghost use Rattle.jm_cli.specs.Words.CommandWords.{Replay, Run, Check, Coenable, Gen, Sweep, Audit};
ghost use Rattle.jm_cli.specs.Views.{command_words};
ghost use Rattle.jm_gen.specs.Scripts.{IsInRange};
ghost use Rattle.jm_inputs.specs.Sources.{FileContents};
ghost use Rattle.jm_inputs.specs.Commands.{AreFew, IsWithin};
ghost use Rattle.jm_inputs.specs.Causes.{CountsFailedReads};
ghost use Rattle.jm_top.specs.CarriedOut.{IsCarriedOut};

use crate::audit::verdict_on;
use crate::blocks::{declared, families};
use crate::replay::replay;
use crate::run::{run, run_in_short};
use crate::sweep::sweep;
use jm_cli::Command;
use jm_inputs::{
    MOST_BYTES, Purpose, Setting, Status, load, read_inputs, read_specifications, read_workload,
    too_long,
};
use jm_port::Folder;
use jm_runner::Gate;
use std::alloc::Global;
use std::slice;
use std::sync::Wait;
use std::thread::Threads;

/// The most bytes that a history may have.
const MOST_OF_HISTORY: usize = 67_108_864;

/// How scripts are read that are run.
const TO_RUN: Setting = Setting {
    files: 0,
    steps: 0,
    ordered: true,
};

/// How scripts are read that a history is audited with: it is loaded before them, and 2,000 steps at most are left.
const TO_AUDIT: Setting = Setting {
    files: 1,
    steps: 198_000,
    ordered: false,
};

/// The text of a command.
pub(crate) fn make_text<R: Threads + Wait + Sync, F: Folder, G: Gate>(
    rt: &R,
    alloc: Global,
    command: &Command,
    files: &mut F,
    gate: &G,
) -> Result<Vec<u8>, Status>
    requires { IsWithin (command_words command.now) }
    ensures carried_out { IsCarriedOut (F.holds files.old) (command_words command.now) result }
    ensures read_failed { CountsFailedReads result (F.faults files.old) (F.faults files.new) }
{
    match command {
        Command::Replay { spec, script } => replayed(alloc, spec, script, files),
        Command::Run { specs, scripts } => {
            ran(rt, alloc, specs.as_slice(), scripts.as_slice(), files, gate)
        }
        Command::Check { specs } => checked(alloc, specs.as_slice(), files),
        Command::Coenable { specs } => coenabled(alloc, specs.as_slice(), files),
        Command::Gen { n } => generated(rt, alloc, *n, gate),
        Command::Sweep { spec, recording } => swept(rt, alloc, spec, recording, files),
        Command::Audit {
            history,
            specs,
            scripts,
        } => audited(alloc, history, specs.as_slice(), scripts.as_slice(), files),
    }
}

/// The text of `replay`.
fn replayed<F: Folder>(
    alloc: Global,
    spec: &String,
    script: &String,
    files: &mut F,
) -> Result<Vec<u8>, Status>
    ensures carried_out { IsCarriedOut (F.holds files.old)
        (Replay (string_bytes spec.now) (string_bytes script.now)) result }
    ensures read_failed { CountsFailedReads result (F.faults files.old) (F.faults files.new) }
{
    let inputs = read_inputs(
        alloc,
        slice::from_ref(spec),
        slice::from_ref(script),
        TO_RUN,
        files,
    )?;
    let text = replay(alloc, inputs.spec_set, inputs.scripts)?;
    Ok(text)
}

/// The text of `run`.
fn ran<R: Threads + Wait + Sync, F: Folder, G: Gate>(
    rt: &R,
    alloc: Global,
    specs: &[String],
    scripts: &[String],
    files: &mut F,
    gate: &G,
) -> Result<Vec<u8>, Status>
    requires specs { AreFew (map string_bytes specs.now) }
    requires scripts { AreFew (map string_bytes scripts.now) }
    ensures carried_out { IsCarriedOut (F.holds files.old)
        (Run (map string_bytes specs.now) (map string_bytes scripts.now)) result }
    ensures read_failed { CountsFailedReads result (F.faults files.old) (F.faults files.new) }
{
    let inputs = read_inputs(alloc, specs, scripts, TO_RUN, files)?;
    let text = run(rt, alloc, inputs.spec_set, inputs.scripts, gate)?;
    Ok(text)
}

/// The text of `check`.
fn checked<F: Folder>(alloc: Global, specs: &[String], files: &mut F) -> Result<Vec<u8>, Status>
    requires { AreFew (map string_bytes specs.now) }
    ensures carried_out { IsCarriedOut (F.holds files.old) (Check (map string_bytes specs.now)) result }
    ensures read_failed { CountsFailedReads result (F.faults files.old) (F.faults files.new) }
{
    let spec_set = read_specifications(alloc, specs, 0, Purpose::Rules, files)?;
    let text = declared(alloc, &spec_set.catalog, spec_set.specs.as_slice())?;
    Ok(text)
}

/// The text of `coenable`.
fn coenabled<F: Folder>(alloc: Global, specs: &[String], files: &mut F) -> Result<Vec<u8>, Status>
    requires { AreFew (map string_bytes specs.now) }
    ensures carried_out { IsCarriedOut (F.holds files.old) (Coenable (map string_bytes specs.now)) result }
    ensures read_failed { CountsFailedReads result (F.faults files.old) (F.faults files.new) }
{
    let spec_set = read_specifications(alloc, specs, 0, Purpose::Families, files)?;
    let text = families(alloc, &spec_set.catalog, spec_set.specs.as_slice())?;
    Ok(text)
}

/// The text of `gen`, over a workload of `n` rounds. It reads no file of the folder.
fn generated<R: Threads + Wait + Sync, G: Gate>(
    rt: &R,
    alloc: Global,
    n: u32,
    gate: &G,
) -> Result<Vec<u8>, Status>
    requires { IsInRange n }
    ensures { (contents : FileContents) → IsCarriedOut contents (Gen n) result }
{
    let inputs = read_workload(alloc, n)?;
    let text = run_in_short(rt, alloc, inputs.spec_set, inputs.scripts, gate)?;
    Ok(text)
}

/// The text of `sweep`.
fn swept<R: Threads + Sync, F: Folder>(
    rt: &R,
    alloc: Global,
    spec: &String,
    recording: &String,
    files: &mut F,
) -> Result<Vec<u8>, Status>
    ensures carried_out { IsCarriedOut (F.holds files.old)
        (Sweep (string_bytes spec.now) (string_bytes recording.now)) result }
    ensures read_failed { CountsFailedReads result (F.faults files.old) (F.faults files.new) }
{
    let spec_set = read_specifications(alloc, slice::from_ref(spec), 0, Purpose::Rules, files)?;
    let bytes = load(recording.as_str(), 1, MOST_BYTES, too_long(0), files)?;
    sweep(rt, alloc, &spec_set, bytes.as_slice())
}

/// The text of `audit`.
fn audited<F: Folder>(
    alloc: Global,
    history: &String,
    specs: &[String],
    scripts: &[String],
    files: &mut F,
) -> Result<Vec<u8>, Status>
    requires specs { AreFew (map string_bytes specs.now) }
    requires scripts { AreFew (map string_bytes scripts.now) }
    ensures carried_out { IsCarriedOut (F.holds files.old)
        (Audit (string_bytes history.now) (map string_bytes specs.now) (map string_bytes scripts.now)) result }
    ensures read_failed { CountsFailedReads result (F.faults files.old) (F.faults files.new) }
{
    let bytes = load(
        history.as_str(),
        0,
        MOST_OF_HISTORY,
        Status::BadHistory,
        files,
    )?;
    let inputs = read_inputs(alloc, specs, scripts, TO_AUDIT, files)?;
    let text = verdict_on(alloc, &inputs, bytes.as_slice())?;
    Ok(text)
}
