//! Numbers of names.
ghost use Rattle.std.specs.Prelude.{◌≡◌, [], OnOk, nat_eq};
ghost use Rattle.std.specs.List.{IsDistinct};
ghost use Rattle.jm_sync.specs.Names.{is_among, with_number};

use indexmap::IndexSet;
use jm_model::NoMemory;
use std::alloc::Global;
use std::marker::Model;

/// Distinct numbers of names, in the order in which they were added. Look-ups are by hash.
#[derive(Drop)]
pub(crate) struct NameNumbers {
    set: IndexSet<u32>,
}

impl Model for NameNumbers {
    ghost use Rattle.std.specs.Prelude.{ℕ, List, nat_eq};
    ghost use Rattle.std.specs.List.{IsDistinct};

    ghost Value = { List ℕ };

    ghost view = { λ n. n.set.keys };

    ghost invariant = { λ n. IsDistinct nat_eq n.set.keys };
}

impl NameNumbers {
    /// No number.
    pub(crate) fn new(alloc: Global) -> NameNumbers
        ensures { result ≡ [] }
    {
        NameNumbers {
            set: IndexSet::new(alloc),
        }
    }

    /// Whether a number is there.
    pub(crate) fn contains(&self, name: u32) -> bool
        ensures value { result ≡ is_among self.now name }
        ensures distinct { IsDistinct nat_eq self.now }
    {
        self.set.contains(&name)
    }

    /// Adds a number, if it isn't there.
    pub(crate) fn add(&mut self, name: u32) -> Result<(), NoMemory>
        ensures { OnOk result (self.new ≡ with_number self.old name) }
    {
        self.set.insert(name)?;
        Ok(())
    }
}
