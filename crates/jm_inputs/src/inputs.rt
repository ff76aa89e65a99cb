//! What a command reads, before it is done.
ghost use Rattle.std.specs.Prelude.{◌≡◌, ◌≤◌, true, length, map, IfOk, IfErr, string_bytes};
ghost use Rattle.jm_cli.specs.Words.CommandWords.{Gen};
ghost use Rattle.jm_gen.specs.Scripts.{IsInRange};
ghost use Rattle.jm_inputs.specs.Sources.{FileContents};
ghost use Rattle.jm_inputs.specs.Commands.{named, given_files, workload_specs, workload_scripts};
ghost use Rattle.jm_inputs.specs.Causes.{CountsFailedReads, StopsInputs, StopsCommand};
ghost use Rattle.jm_inputs.specs.Reading.{AreInputsOf};
ghost use Rattle.jm_script.specs.Catalogs.{most_specs, most_scripts};
ghost use Rattle.jm_script.specs.Meanings.{most_steps};

use crate::scripts::{Scripts, Setting, given_scripts, read_scripts};
use crate::spec_set::{Purpose, SpecSet, given_specifications, read_specifications};
use crate::status::Status;
use jm_gen::{GenError, Workload, workload};
use jm_model::NoMemory;
use jm_port::Folder;
use std::alloc::Global;

/// The specifications and the scripts of a command.
#[derive(Drop)]
pub struct Inputs {
    pub spec_set: SpecSet,
    pub scripts: Scripts,
}

/// Reads the specifications of these names, and then the scripts of those names.
pub fn read_inputs<F: Folder>(
    alloc: Global,
    specs: &[String],
    scripts: &[String],
    setting: Setting,
    files: &mut F,
) -> Result<Inputs, Status>
    requires few_specs { length specs.now ≤ most_specs }
    requires few_scripts { length scripts.now ≤ most_scripts }
    requires files { setting.files ≤ 1 }
    requires steps { setting.steps ≤ most_steps }
    ensures read { IfOk result (AreInputsOf (F.holds files.old) setting.ordered setting.steps
        (named (map string_bytes specs.now)) (named (map string_bytes scripts.now))) }
    ensures err { IfErr result (StopsInputs (F.holds files.old) setting.ordered setting.files setting.steps
        (named (map string_bytes specs.now)) (named (map string_bytes scripts.now))) }
    ensures read_failed { CountsFailedReads result (F.faults files.old) (F.faults files.new) }
{
    let spec_set = read_specifications(alloc, specs, setting.files, Purpose::Rules, files)?;
    let scripts = read_scripts(alloc, scripts, &spec_set, setting, files)?;
    Ok(Inputs { spec_set, scripts })
}

/// Reads files that are given, specifications and scripts, as if they were loaded.
fn given_inputs(alloc: Global, specs: &[Vec<u8>], scripts: &[Vec<u8>]) -> Result<Inputs, Status>
    requires few_specs { length specs.now ≤ most_specs }
    requires few_scripts { length scripts.now ≤ most_scripts }
    ensures read { (contents : FileContents)
        → IfOk result (AreInputsOf contents true 0 (given_files (map (λ file. file.items) specs.now))
        (given_files (map (λ file. file.items) scripts.now))) }
    ensures err { (contents : FileContents)
        → IfErr result (StopsInputs contents true 0 0 (given_files (map (λ file. file.items) specs.now))
        (given_files (map (λ file. file.items) scripts.now))) }
{
    let spec_set = given_specifications(alloc, specs)?;
    let scripts = given_scripts(alloc, scripts, &spec_set)?;
    Ok(Inputs { spec_set, scripts })
}

/// Makes the workload of `n` rounds, and reads its files as if they were loaded.
pub fn read_workload(alloc: Global, n: u32) -> Result<Inputs, Status>
    requires { IsInRange n }
    ensures read { (contents : FileContents)
        → IfOk result (AreInputsOf contents true 0 (given_files workload_specs) (given_files (workload_scripts n))) }
    ensures err { (contents : FileContents) → IfErr result (StopsCommand contents (Gen n)) }
{
    let files = files_of(alloc, n)?;
    given_inputs(alloc, files.specs.as_slice(), files.scripts.as_slice())
}

/// The files of the workload of `n` rounds.
fn files_of(alloc: Global, n: u32) -> Result<Workload, NoMemory>
    requires { IsInRange n }
    ensures specs { IfOk result (λ files. map (λ file. file.items) files.specs.items ≡ workload_specs) }
    ensures scripts { IfOk result (λ files. map (λ file. file.items) files.scripts.items ≡ workload_scripts n) }
{
    match workload(alloc, n) {
        Ok(files) => Ok(files),
        Err(GenError::NoMemory) => Err(NoMemory),
        Err(GenError::OutOfRange) => unreachable!(),
    }
}
