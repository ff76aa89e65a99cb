//! The specifications of a command, read one after the other.
ghost use Rattle.std.specs.Prelude.{◌≡◌, ◌<◌, ◌≤◌, ◌∷◌, ◌++◌, [], ℕ, List, length, map, IfOk, IfErr, OnOk, IsSome, None, true, false, string_bytes};
ghost use Rattle.jm_events.specs.Names.{number_of};
ghost use Rattle.jm_reading.specs.Faults.{Checks};
ghost use Rattle.jm_model.specs.declared.fault.SpecFault.{SpecFault};
ghost use Rattle.jm_script.specs.Catalogs.{spec_names, most_specs};
ghost use Rattle.jm_inputs.specs.Commands.{named, given_files};
ghost use Rattle.jm_inputs.specs.Sources.{FileContents, Named};
ghost use Rattle.jm_inputs.specs.Specifications.{most_bytes};
ghost use Rattle.jm_inputs.specs.Scripts.{catalog_of};
ghost use Rattle.jm_inputs.specs.Inputs.{asks_families, grammar_fault, IsRefusal};
ghost use Rattle.jm_inputs.specs.Reading.{FitsEntry, named_entry, listing, listed_in, specs_in, IsCatalogued, HasNext, HasNextFrom, IsSpecSetOf};
ghost use Rattle.jm_inputs.specs.Causes.{CountsFailedReads, IsNoSpec, IsNoSpecIn, StopsSpecs};

use crate::files::load;
use crate::specification::{CompiledSpec, NamedSpec, SpecHeader, read_specification};
use crate::status::{MOST_BYTES, Status};
use jm_events::EventTable;
use jm_model::{SpecError, SpecFault};
use jm_port::Folder;
use jm_script::Catalog;
use std::alloc::Global;

/// What specifications are read for.
#[derive(Clone, Copy)]
pub enum Purpose {
    /// For their rules, or for what they declare.
    Rules,
    /// For their coenable families, which a grammar doesn't have.
    Families,
}

/// Specifications in order, and the catalog of them.
#[derive(Drop)]
pub struct SpecSet {
    pub specs: Vec<CompiledSpec>,
    pub catalog: Catalog,
}

impl SpecSet {
    /// No specification.
    pub(crate) fn new(alloc: Global) -> SpecSet
        ensures specs { result.specs.items ≡ [] }
        ensures catalogued { IsCatalogued result }
    {
        SpecSet {
            specs: Vec::new(alloc),
            catalog: Catalog::new(alloc),
        }
    }

    /// Adds a specification. The fault is `DuplicateSpec` where one has its name.
    fn add(
        &mut self,
        name: &str,
        table: EventTable,
        compiled: CompiledSpec,
    ) -> Result<(), SpecError>
        requires bounded { length self.old.specs.items < most_specs }
        requires catalogued { IsCatalogued self.old }
        requires whole { FitsEntry (listing (named_entry name.now table) compiled) }
        ensures listed { OnOk result (listed_in self.new
            ≡ listed_in self.old ++ listing (named_entry name.now table) compiled ∷ []) }
        ensures catalogued { OnOk result (IsCatalogued self.new) }
        ensures new_name { OnOk result (number_of (spec_names (catalog_of (specs_in self.old))) name.now ≡ None) }
        ensures fault { (fault : SpecFault) → result ≡ Err (SpecError.Bad fault) →
            (fault ≡ SpecFault.DuplicateSpec)
            × IsSome (number_of (spec_names (catalog_of (specs_in self.old))) name.now) }
    {
        self.catalog.add(name, table)?;
        self.specs.push(compiled)?;
        Ok(())
    }
}

/// Reads the specifications of these names, in order, whose files stand after a number of others. Where they are
/// read for families, a grammar is refused.
pub fn read_specifications<F: Folder>(
    alloc: Global,
    names: &[String],
    before: u32,
    purpose: Purpose,
    files: &mut F,
) -> Result<SpecSet, Status>
    requires bounded { length names.now ≤ most_specs }
    requires before { before ≤ 1 }
    ensures read { IfOk result (IsSpecSetOf (F.holds files.old) (asks_families purpose)
        (named (map string_bytes names.now))) }
    ensures err { IfErr result (StopsSpecs (F.holds files.old) before (asks_families purpose)
        (named (map string_bytes names.now))) }
    ensures read_failed { CountsFailedReads result (F.faults files.old) (F.faults files.new) }
    ensures never_falls { F.faults files.old ≤ F.faults files.new }
    ensures unchanged { (other : List ℕ) → F.holds files.new other ≡ F.holds files.old other }
{
    let mut spec_set = SpecSet::new(alloc);
    for name in names {
        read_next(alloc, name.as_str(), before, purpose, files, &mut spec_set)?;
    }
    Ok(spec_set)
}

/// Reads the specifications that these bytes say, in order.
pub(crate) fn given_specifications(alloc: Global, files: &[Vec<u8>]) -> Result<SpecSet, Status>
    requires { length files.now ≤ most_specs }
    ensures read { (contents : FileContents)
        → IfOk result (IsSpecSetOf contents false (given_files (map (λ file. file.items) files.now))) }
    ensures err { (contents : FileContents)
        → IfErr result (StopsSpecs contents 0 false (given_files (map (λ file. file.items) files.now))) }
{
    let mut spec_set = SpecSet::new(alloc);
    for file in files {
        read_given(alloc, file.as_slice(), &mut spec_set)?;
    }
    Ok(spec_set)
}

/// Reads the specification that these bytes say, after those of the spec set, however many they are.
fn read_given(alloc: Global, bytes: &[u8], spec_set: &mut SpecSet) -> Result<(), Status>
    requires bounded { length spec_set.old.specs.items < most_specs }
    requires catalogued { IsCatalogued spec_set.old }
    ensures read { OnOk result (HasNext false bytes.now spec_set.old spec_set.new) }
    ensures err { IfErr result (IsNoSpecIn false (specs_in spec_set.old) (length spec_set.old.specs.items) bytes.now) }
{
    let number = spec_set.specs.len() as u32;
    if bytes.len() > MOST_BYTES {
        return Err(too_long(number));
    }
    read_bytes(alloc, bytes, number, Purpose::Rules, spec_set)
}

/// Reads the specification of this name, after those of the spec set, whose files stand after a number of others. After
/// an error the spec set is of no use.
fn read_next<F: Folder>(
    alloc: Global,
    name: &str,
    before: u32,
    purpose: Purpose,
    files: &mut F,
    spec_set: &mut SpecSet,
) -> Result<(), Status>
    requires before { before ≤ 1 }
    requires bounded { length spec_set.old.specs.items < most_specs }
    requires catalogued { IsCatalogued spec_set.old }
    ensures read { OnOk result (HasNextFrom (F.holds files.old) (Named name.now) (asks_families purpose) spec_set.old
        spec_set.new) }
    ensures err { IfErr result (IsNoSpec (F.holds files.old) (asks_families purpose) (specs_in spec_set.old) before
        (length spec_set.old.specs.items) (Named name.now)) }
    ensures read_failed { CountsFailedReads result (F.faults files.old) (F.faults files.new) }
    ensures never_falls { F.faults files.old ≤ F.faults files.new }
    ensures unchanged { (other : List ℕ) → F.holds files.new other ≡ F.holds files.old other }
{
    let number = spec_set.specs.len() as u32;
    let bytes = load(name, before + number, MOST_BYTES, too_long(number), files)?;
    read_bytes(alloc, bytes.as_slice(), number, purpose, spec_set)
}

/// The end of a command whose specification of this number is too long.
fn too_long(number: u32) -> Status
    ensures { result ≡ Status.BadSpec number SpecFault.TooLong }
{
    let fault = SpecFault::TooLong;
    Status::BadSpec {
        file: number,
        fault,
    }
}

/// Reads the specification that these bytes say, which has this number among all.
fn read_bytes(
    alloc: Global,
    bytes: &[u8],
    number: u32,
    purpose: Purpose,
    spec_set: &mut SpecSet,
) -> Result<(), Status>
    requires small { length bytes.now ≤ most_bytes }
    requires bounded { length spec_set.old.specs.items < most_specs }
    requires catalogued { IsCatalogued spec_set.old }
    ensures read { OnOk result (HasNext (asks_families purpose) bytes.now spec_set.old spec_set.new) }
    ensures err { IfErr result (IsNoSpecIn (asks_families purpose) (specs_in spec_set.old) number bytes.now) }
{
    match admit(alloc, bytes, purpose, spec_set) {
        Ok(()) => Ok(()),
        Err(SpecError::Bad(fault)) => {
            Err(Status::BadSpec {
                file: number,
                fault,
            })
        }
        Err(SpecError::NoMemory) => Err(Status::NoMemory),
    }
}

/// Reads the specification that these bytes say, after those of the spec set.
fn admit(
    alloc: Global,
    bytes: &[u8],
    purpose: Purpose,
    spec_set: &mut SpecSet,
) -> Result<(), SpecError>
    requires small { length bytes.now ≤ most_bytes }
    requires bounded { length spec_set.old.specs.items < most_specs }
    requires catalogued { IsCatalogued spec_set.old }
    ensures read { OnOk result (HasNext (asks_families purpose) bytes.now spec_set.old spec_set.new) }
    ensures fault { (fault : SpecFault) → result ≡ Err (SpecError.Bad fault)
        → IsRefusal (asks_families purpose) (specs_in spec_set.old) bytes.now fault }
{
    let reading = read_specification(alloc, bytes)?;
    let NamedSpec {
        name,
        table,
        compiled,
    } = reading;
    check_families(purpose, &compiled.header)?;
    spec_set.add(name, table, compiled)
}

/// Refuses the first grammar where specifications are read for families: it has none.
fn check_families(purpose: Purpose, header: &SpecHeader) -> Result<(), SpecError>
    ensures { Checks result (grammar_fault (asks_families purpose) header.now.grammar_line) }
{
    match purpose {
        Purpose::Rules => Ok(()),
        Purpose::Families => match header.grammar_line {
            Some(line) => Err(SpecFault::UnsupportedLogic { line }.into()),
            None => Ok(()),
        },
    }
}
