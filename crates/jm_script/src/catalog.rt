//! The specifications that scripts may name.
ghost use Rattle.std.specs.Prelude.{◌≡◌, ◌<◌, ◌≤◌, [], ◌∷◌, ◌++◌, length, slice_get, option_map, IfOk, OnOk, OnErr, IfSome, IsErrOf, IsOkUnless, IsSome, None};
ghost use Rattle.jm_events.specs.Names.{number_of};
ghost use Rattle.jm_script.specs.Catalogs.{spec_names, most_specs};

use jm_events::{EventTable, Names};
use jm_model::{SpecError, SpecFault};
use std::alloc::Global;
use std::marker::Model;

/// Up to 16 specifications with distinct names, numbered from 0 in the order in which they are added.
#[derive(Drop)]
pub struct Catalog {
    names: Names,
    tables: Vec<EventTable>,
}

impl Model for Catalog {
    ghost use Rattle.std.specs.Prelude.{◌≡◌, ◌≤◌, List, length};
    ghost use Rattle.jm_script.specs.Catalogs.{CatalogEntry, entries_of};

    ghost Value = { List CatalogEntry };

    ghost view = { λ c. entries_of c.names c.tables.items };

    ghost invariant = { λ c. (length c.tables.items ≡ length c.names) × (length c.names ≤ 16) };
}

impl Catalog {
    /// No specification.
    pub fn new(alloc: Global) -> Catalog
        ensures { result ≡ [] }
    {
        Catalog {
            names: Names::new(alloc),
            tables: Vec::new(alloc),
        }
    }

    /// Adds a specification, and answers its number. The fault is `DuplicateSpec` where the name is there.
    pub fn add(&mut self, name: &str, table: EventTable) -> Result<u8, SpecError>
        requires { length self.old < most_specs }
        ensures refused { IsSome (number_of (spec_names self.old) name.now)
            → IsErrOf result (SpecError.Bad SpecFault.DuplicateSpec) }
        ensures accepted { number_of (spec_names self.old) name.now ≡ None → IsOkUnless result SpecError.NoMemory }
        ensures number { IfOk result (λ spec. spec ≡ length self.old) }
        ensures ok { OnOk result (self.new ≡ self.old ++ record { name = name.now; table = table } ∷ []) }
        ensures err { OnErr result (self.new ≡ self.old) }
    {
        if self.names.find(name).is_some() {
            return Err(SpecFault::DuplicateSpec.into());
        }
        let number = self.names.len() as u8;
        self.tables.reserve(1)?;
        self.names.add(name)?;
        self.tables.push_reserved(table);
        Ok(number)
    }

    /// How many specifications there are, at most 16.
    pub fn len(&self) -> u8
        ensures value { result ≡ length self.now }
        ensures bounded { result ≤ most_specs }
    {
        self.names.len() as u8
    }

    /// The number of a specification, if it is there.
    pub(crate) fn find(&self, name: &str) -> Option<u8>
        ensures value { result ≡ number_of (spec_names self.now) name.now }
        ensures within { IfSome result (λ spec. spec < length self.now) }
    {
        match self.names.find(name) {
            Some(number) => Some(number as u8),
            None => None,
        }
    }

    /// The name of a specification.
    pub fn name(&self, spec: u8) -> &str
        requires { spec < length self.now }
        ensures { option_map (λ e. e.name) (slice_get self.now spec) ≡ Some result.now }
    {
        self.names.name(spec as u32)
    }

    /// The parameters and events of a specification.
    pub fn table(&self, spec: u8) -> &EventTable
        requires { spec < length self.now }
        ensures { option_map (λ e. e.table) (slice_get self.now spec) ≡ Some result.now }
    {
        &self.tables[spec as usize]
    }
}
