ghost use Rattle.std.specs.Prelude.{◌≡◌, ◌<◌, ◌≤◌, ◌⊎◌, Err, IfOk, IfErr, OnOk, length};
ghost use Rattle.jm_ptltl.specs.Vectors.{HasGroup};
ghost use Rattle.jm_ptltl.specs.Tables.{HasStates, IsCompiled, IsCrowded};
ghost use Rattle.jm_table.specs.Explorations.{most_states};
ghost use Rattle.jm_table.specs.Tables.{most_groups};

use crate::past::Past;
use crate::vector::has_bit;
use jm_events::EventTable;
use jm_model::{SpecError, SpecFault};
use jm_table::{Table, build, places};
use std::alloc::Global;

impl Past {
    /// A table of the start and the vectors of truth of all subformulas that words reach, with two groups: the states
    /// at which the formula is true, and those at which it is false.
    ///
    /// The fault is `TooManyStates` exactly where these are more than 1,024.
    pub fn compile(&self, alloc: Global, events: &EventTable) -> Result<Table, SpecError>
        ensures letters { IfOk result (λ table. table.letters ≡ length events.now.events) }
        ensures groups { IfOk result (λ table. length table.groups ≡ 2) }
        ensures states { IfOk result (λ table. HasStates self.now table) }
        ensures compiled { IfOk result (λ table. IsCompiled self.now table) }
        ensures fault { IfErr result (λ e. (e ≡ SpecError.NoMemory)
            ⊎ ((e ≡ SpecError.Bad SpecFault.TooManyStates) × IsCrowded self.now (length events.now.events))) }
        ensures refused { IsCrowded self.now (length events.now.events)
            → (result ≡ Err (SpecError.Bad SpecFault.TooManyStates)) ⊎ (result ≡ Err SpecError.NoMemory) }
    {
        let root = self.nodes().len().saturating_sub(1);
        let (mut table, nodes) = build(alloc, self, events.letters())?;
        add_group(alloc, nodes.as_slice(), root, true, &mut table)?;
        add_group(alloc, nodes.as_slice(), root, false, &mut table)?;
        Ok(table)
    }
}

/// Adds the group of the states at which the bit of a place says `truth`, to a table whose states have these nodes. At
/// the start none does.
fn add_group(
    alloc: Global,
    nodes: &[Option<u64>],
    place: usize,
    truth: bool,
    table: &mut Table,
) -> Result<(), SpecError>
    requires place { place < 64 }
    requires room { length table.old.groups < most_groups }
    requires states { table.old.states ≡ length nodes.now }
    requires bounded { length nodes.now ≤ most_states }
    ensures group { OnOk result (HasGroup place truth nodes.now table.old table.new) }
    ensures bounded { table.old.states ≤ most_states }
    ensures fault { IfErr result (λ e. e ≡ SpecError.NoMemory) }
{
    let members = places(alloc, nodes, move |node| match *node {
        Some(vector) => has_bit(vector, place) == truth,
        None => false,
    })?;
    table.add_group(members.as_slice())?;
    Ok(())
}
