//! The scripts of a command, read one after the other.
ghost use Rattle.std.specs.Prelude.{◌≡◌, ◌+◌, ◌<◌, ◌≤◌, [], List, true, length, map, take, Some, IfOk, IfErr, OnOk, string_bytes};
ghost use Rattle.std.specs.List.{IsDistinct};
ghost use Rattle.std.specs.Str.{bytes_eq};
ghost use Rattle.jm_model.specs.declared.fault.ScriptFault.{ScriptFault};
ghost use Rattle.jm_inputs.specs.Commands.{named, given_files};
ghost use Rattle.jm_inputs.specs.Sources.{FileContents, Named, AreOnlyRead};
ghost use Rattle.jm_inputs.specs.Specifications.{Specification, most_bytes};
ghost use Rattle.jm_sync.specs.Checks.{AreSound, sync_of};
ghost use Rattle.jm_inputs.specs.Scripts.{meaning_over, IsScriptFileFault};
ghost use Rattle.jm_inputs.specs.Reading.{specs_in, IsCatalogued, AreCounted, HasSteps, AreLeft, HasScript, HasScriptFrom, AreScriptsOf};
ghost use Rattle.jm_inputs.specs.Causes.{CountsFailedReads, IsNoOrder, IsNoScript, IsNoScriptFileIn, StopsScripts};
ghost use Rattle.jm_script.specs.Catalogs.{most_specs, most_scripts};
ghost use Rattle.jm_script.specs.Meanings.{most_steps};
ghost use Rattle.jm_script.specs.Objects.{most_objects};

use crate::files::{let_go, load};
use crate::spec_set::SpecSet;
use crate::status::{MOST_BYTES, Status};
use jm_events::Names;
use jm_model::{NoMemory, ScriptError, ScriptFault};
use jm_port::Folder;
use jm_script::{CompactScript, read_compact};
use jm_sync::{Cut, SyncError, SyncLine, check, cut};
use memchr::memmem::find;
use std::alloc::Global;

/// How many bytes of a script are near its end.
const NEAR_THE_END: usize = 4096;

/// How the scripts of a command are read.
#[derive(Clone, Copy)]
pub struct Setting {
    /// How many files stand before those of the specifications: 0 or 1.
    pub files: u32,
    /// How many steps count as read before: at most 200,000.
    pub steps: u32,
    /// Whether lines that ask for order are taken out.
    pub ordered: bool,
}

/// Scripts in order, the names of their objects, and how many steps count as read after them; the lines of each that
/// ask for order, and the names that these post or wait for.
#[derive(Drop)]
pub struct Scripts {
    pub list: Vec<CompactScript>,
    pub objects: Names,
    pub count: u32,
    pub cuts: Vec<Cut>,
    pub posted: Names,
}

impl Scripts {
    /// No script. The given number of steps counts as read.
    pub(crate) fn new(alloc: Global, count: u32) -> Scripts
        requires { count ≤ most_steps }
        ensures list { result.list.items ≡ [] }
        ensures objects { result.objects ≡ [] }
        ensures count { result.count ≡ count }
        ensures cuts { result.cuts.items ≡ [] }
        ensures posted { result.posted ≡ [] }
        ensures counted { (specs : List Specification) → AreCounted specs result }
    {
        Scripts {
            list: Vec::new(alloc),
            objects: Names::new(alloc),
            count,
            cuts: Vec::new(alloc),
            posted: Names::new(alloc),
        }
    }
}

/// Reads the scripts of these names, in order, over the specifications of the spec set, whose files stand before them,
/// and checks what they ask for.
pub(crate) fn read_scripts<F: Folder>(
    alloc: Global,
    names: &[String],
    spec_set: &SpecSet,
    setting: Setting,
    files: &mut F,
) -> Result<Scripts, Status>
    requires bounded { length names.now ≤ most_scripts }
    requires files { setting.files ≤ 1 }
    requires steps { setting.steps ≤ most_steps }
    requires few_specs { length spec_set.now.specs.items ≤ most_specs }
    requires catalogued { IsCatalogued spec_set.now }
    ensures read { IfOk result (AreScriptsOf (F.holds files.old) setting.ordered (specs_in spec_set.now) setting.steps
        (named (map string_bytes names.now))) }
    ensures err { IfErr result (StopsScripts (F.holds files.old) setting.ordered (specs_in spec_set.now)
        (setting.files + length spec_set.now.specs.items) setting.steps (named (map string_bytes names.now))) }
    ensures read_failed { CountsFailedReads result (F.faults files.old) (F.faults files.new) }
{
    let mut scripts = Scripts::new(alloc, setting.steps);
    for name in names {
        read_next(alloc, name.as_str(), spec_set, setting, files, &mut scripts)?;
    }
    check_order(alloc, scripts.cuts.as_slice())?;
    Ok(scripts)
}

/// Reads the scripts that these bytes say, in order, over the specifications of the spec set, and checks what they ask
/// for.
pub(crate) fn given_scripts(
    alloc: Global,
    files: &[Vec<u8>],
    spec_set: &SpecSet,
) -> Result<Scripts, Status>
    requires bounded { length files.now ≤ most_scripts }
    requires catalogued { IsCatalogued spec_set.now }
    ensures read { (contents : FileContents)
        → IfOk result (AreScriptsOf contents true (specs_in spec_set.now) 0
        (given_files (map (λ file. file.items) files.now))) }
    ensures err { (contents : FileContents)
        → IfErr result (StopsScripts contents true (specs_in spec_set.now) (length spec_set.now.specs.items) 0
        (given_files (map (λ file. file.items) files.now))) }
{
    let mut scripts = Scripts::new(alloc, 0);
    for file in files {
        read_given(alloc, file.as_slice(), spec_set, &mut scripts)?;
    }
    check_order(alloc, scripts.cuts.as_slice())?;
    Ok(scripts)
}

/// Whether scripts can be done in the order that they ask for.
fn check_order(alloc: Global, cuts: &[Cut]) -> Result<(), Status>
    requires { length cuts.now ≤ most_scripts }
    ensures sound { OnOk result (AreSound (sync_of cuts.now)) }
    ensures err { IfErr result (IsNoOrder (sync_of cuts.now)) }
{
    let Err(error) = check(alloc, cuts) else {
        return Ok(());
    };
    match error {
        SyncError::Bad { script, fault } => Err(Status::BadScript { script, fault }),
        SyncError::NoMemory => Err(Status::NoMemory),
    }
}

/// Reads the script that these bytes say, after the others, however many they are.
fn read_given(
    alloc: Global,
    bytes: &[u8],
    spec_set: &SpecSet,
    scripts: &mut Scripts,
) -> Result<(), Status>
    requires bounded { length scripts.old.list.items < most_scripts }
    requires catalogued { IsCatalogued spec_set.now }
    requires counted { AreCounted (specs_in spec_set.now) scripts.old }
    ensures read { OnOk result (HasScript true (specs_in spec_set.now) bytes.now scripts.old scripts.new) }
    ensures err { IfErr result (IsNoScriptFileIn true (specs_in spec_set.now) scripts.old.count scripts.old.objects
        (length scripts.old.list.items) bytes.now) }
{
    let number = scripts.list.len() as u32;
    if bytes.len() > MOST_BYTES {
        return Err(too_long(number));
    }
    read_bytes(alloc, bytes, number, spec_set, true, scripts)
}

/// Reads the script of this name, after the others. After an error the scripts are of no use.
fn read_next<F: Folder>(
    alloc: Global,
    name: &str,
    spec_set: &SpecSet,
    setting: Setting,
    files: &mut F,
    scripts: &mut Scripts,
) -> Result<(), Status>
    requires few_files { setting.files + length spec_set.now.specs.items ≤ 17 }
    requires bounded { length scripts.old.list.items < most_scripts }
    requires catalogued { IsCatalogued spec_set.now }
    requires counted { AreCounted (specs_in spec_set.now) scripts.old }
    ensures read { OnOk result (HasScriptFrom (F.holds files.old) (Named name.now)
        setting.ordered (specs_in spec_set.now) scripts.old scripts.new) }
    ensures err { IfErr result (IsNoScript (F.holds files.old) setting.ordered (specs_in spec_set.now)
        (setting.files + length spec_set.now.specs.items) scripts.old.count scripts.old.objects
        (length scripts.old.list.items) (Named name.now)) }
    ensures read_failed { CountsFailedReads result (F.faults files.old) (F.faults files.new) }
    ensures files { AreOnlyRead (F.holds files.old) (F.holds files.new) (F.faults files.old) (F.faults files.new) }
{
    let number = scripts.list.len() as u32;
    let specs = setting.files + spec_set.specs.len() as u32;
    let bytes = load(name, specs + number, MOST_BYTES, too_long(number), files)?;
    let read = read_bytes(
        alloc,
        bytes.as_slice(),
        number,
        spec_set,
        setting.ordered,
        scripts,
    );
    let_go(bytes);
    read
}

/// The end of a command whose script of this number is too long.
pub fn too_long(number: u32) -> Status
    ensures { result ≡ Status.BadScript number ScriptFault.TooLong }
{
    let fault = ScriptFault::TooLong;
    Status::BadScript {
        script: number,
        fault,
    }
}

/// Reads the script that these bytes say, which has this number among all.
fn read_bytes(
    alloc: Global,
    bytes: &[u8],
    number: u32,
    spec_set: &SpecSet,
    ordered: bool,
    scripts: &mut Scripts,
) -> Result<(), Status>
    requires small { length bytes.now ≤ most_bytes }
    requires bounded { length scripts.old.list.items < most_scripts }
    requires catalogued { IsCatalogued spec_set.now }
    requires counted { AreCounted (specs_in spec_set.now) scripts.old }
    ensures read { OnOk result (HasScript ordered (specs_in spec_set.now) bytes.now scripts.old scripts.new) }
    ensures err { IfErr result (IsNoScriptFileIn ordered
        (specs_in spec_set.now) scripts.old.count scripts.old.objects number bytes.now) }
{
    match add(alloc, bytes, spec_set, ordered, scripts) {
        Ok(()) => Ok(()),
        Err(ScriptError::Bad(fault)) => {
            Err(Status::BadScript {
                script: number,
                fault,
            })
        }
        Err(ScriptError::NoMemory) => Err(Status::NoMemory),
    }
}

/// Reads the script that these bytes say, after the others. Unless it seems to ask for order it is read as it stands,
/// and without the lines that ask for order where it has a fault so: as it stands each of these is one.
fn add(
    alloc: Global,
    bytes: &[u8],
    spec_set: &SpecSet,
    ordered: bool,
    scripts: &mut Scripts,
) -> Result<(), ScriptError>
    requires small { length bytes.now ≤ most_bytes }
    requires bounded { length scripts.old.list.items < most_scripts }
    requires catalogued { IsCatalogued spec_set.now }
    requires counted { AreCounted (specs_in spec_set.now) scripts.old }
    ensures read { OnOk result (HasScript ordered (specs_in spec_set.now) bytes.now scripts.old scripts.new) }
    ensures fault { (fault : ScriptFault) → result ≡ Err (ScriptError.Bad fault)
        → IsScriptFileFault ordered (specs_in spec_set.now) scripts.old.count scripts.old.objects bytes.now fault }
{
    if ordered && seems_to_ask(bytes, scripts) {
        return add_cut(alloc, bytes, spec_set, scripts);
    }
    let names = scripts.objects.len();
    let count = scripts.count;
    match add_steps(alloc, bytes, Vec::new(alloc), spec_set, scripts) {
        Err(ScriptError::Bad(_)) if ordered => {
            scripts.objects = first_names(alloc, &scripts.objects, names)?;
            scripts.count = count;
            add_cut(alloc, bytes, spec_set, scripts)
        }
        result => result,
    }
}

/// Whether these bytes seem to ask for order, after the others: some of those do, or one of the two words stands near
/// the end. It says nothing for sure.
fn seems_to_ask(bytes: &[u8], scripts: &Scripts) -> bool {
    let end = &bytes[bytes.len().saturating_sub(NEAR_THE_END)..];
    scripts.posted.len() > 0 || find(end, b"post").is_some() || find(end, b"wait").is_some()
}

/// Reads the script that is left of these bytes without the lines that ask for order, after the others.
fn add_cut(
    alloc: Global,
    bytes: &[u8],
    spec_set: &SpecSet,
    scripts: &mut Scripts,
) -> Result<(), ScriptError>
    requires small { length bytes.now ≤ most_bytes }
    requires bounded { length scripts.old.list.items < most_scripts }
    requires catalogued { IsCatalogued spec_set.now }
    requires counted { AreCounted (specs_in spec_set.now) scripts.old }
    ensures read { OnOk result (HasScript true (specs_in spec_set.now) bytes.now scripts.old scripts.new) }
    ensures fault { (fault : ScriptFault) → result ≡ Err (ScriptError.Bad fault)
        → IsScriptFileFault true (specs_in spec_set.now) scripts.old.count scripts.old.objects bytes.now fault }
{
    let Cut { rest, lines } = cut(alloc, bytes, &mut scripts.posted)?;
    add_steps(alloc, rest.as_slice(), lines, spec_set, scripts)
}

/// The first of these names, up to the given count, under the same numbers.
fn first_names(alloc: Global, names: &Names, count: u32) -> Result<Names, NoMemory>
    requires count { count ≤ length names.now }
    requires distinct { IsDistinct bytes_eq (take count names.now) }
    ensures { IfOk result (λ first. first ≡ take count names.now) }
{
    let mut first = Names::new(alloc);
    for number in 0..count {
        first.add(names.name(number))?;
    }
    Ok(first)
}

/// Reads the script that these bytes say, and adds it with the lines that ask for order.
fn add_steps(
    alloc: Global,
    bytes: &[u8],
    lines: Vec<SyncLine>,
    spec_set: &SpecSet,
    scripts: &mut Scripts,
) -> Result<(), ScriptError>
    requires small { length bytes.now ≤ most_bytes }
    requires few_steps { scripts.old.count ≤ most_steps }
    requires few_names { length scripts.old.objects ≤ most_objects }
    requires catalogued { IsCatalogued spec_set.now }
    ensures read { OnOk result (HasSteps (specs_in spec_set.now) bytes.now lines.items scripts.old scripts.new) }
    ensures fault { (fault : ScriptFault) → result ≡ Err (ScriptError.Bad fault)
        → (meaning_over (specs_in spec_set.now) scripts.old.count scripts.old.objects bytes.now).fault ≡ Some fault }
    ensures left { (fault : ScriptFault) → result ≡ Err (ScriptError.Bad fault) → AreLeft scripts.old scripts.new }
{
    let script = read_compact(
        alloc,
        bytes,
        &spec_set.catalog,
        &mut scripts.objects,
        &mut scripts.count,
    )?;
    scripts.list.push(script)?;
    scripts.cuts.push(Cut {
        rest: Vec::new(alloc),
        lines,
    })?;
    Ok(())
}
