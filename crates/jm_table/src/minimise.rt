ghost use Rattle.std.specs.Prelude.{ℕ, ◌≡◌, ◌<◌, ◌≤◌, ◌*◌, ◌/◌, ◌%◌, ◌↔◌, length, All, Contains, IfOk, slice_index};
ghost use Rattle.jm_table.specs.Tables.{IsTable, next_of, IsInGroup};
ghost use Rattle.jm_table.specs.Minimal.{IsReduced, IsReachable, HaveSameGroups};
ghost use Rattle.jm_table.specs.Partitions.{IsPartition};
ghost use Rattle.jm_table.specs.Explorations.{most_states};

use crate::partition::Partition;
use crate::refinement::equivalence;
use crate::table::Table;
use jm_model::{Letter, NoMemory};
use std::alloc::Global;

impl Table {
    /// The table that is in the same groups after every word, the empty one included, and of which no two states agree
    /// in groups after all words. Out of memory, the table is gone.
    ///
    /// Its states are the classes that Moore's refinement finds (Moore 1956), in at most a round for each state.
    pub fn minimise(self) -> Result<Table, NoMemory>
        ensures shape { IfOk result (λ t. (t.letters ≡ self.letters) × (length t.groups ≡ length self.groups)) }
        ensures table { IfOk result IsTable }
        ensures groups { IfOk result (HaveSameGroups self) }
        ensures reduced { IfOk result IsReduced }
        ensures reachable { IfOk result (λ t. IsReachable self → IsReachable t) }
        ensures bounded { IfOk result (λ t. t.states ≤ self.states) }
    {
        let alloc = self.allocator();
        let partition = equivalence(alloc, &self)?;
        let states = partition.firsts.len() as u16;
        let next = next_classes(alloc, &self, &partition)?;
        let mut minimal = Table::new(alloc, self.letters(), states, next);
        for group in 0..self.group_count() {
            let members = classes_in(alloc, &self, &partition, group)?;
            minimal.add_group(&members)?;
        }
        Ok(minimal)
    }
}

/// The classes that letters lead to, class by class and in each letter by letter.
fn next_classes(alloc: Global, table: &Table, partition: &Partition) -> Result<Vec<u16>, NoMemory>
    requires { IsPartition table.now.states partition.now.classes.items partition.now.firsts.items }
    ensures count { IfOk result (λ next. length next.items ≡ length partition.now.firsts.items * table.now.letters) }
    ensures each { IfOk result (λ next. (k : ℕ) → k < length next.items → slice_index next.items k ≡
        slice_index partition.now.classes.items (next_of table.now
        (slice_index partition.now.firsts.items (k / table.now.letters)) (k % table.now.letters))) }
{
    let letters = table.letters() as usize;
    let mut next = Vec::new(alloc);
    for place in 0..partition.firsts.len() * letters {
        let first = partition.firsts[place / letters];
        let after = table.next(first, Letter((place % letters) as u8));
        next.push(partition.classes[after as usize])?;
    }
    Ok(next)
}

/// The classes whose first states are in a group.
fn classes_in(
    alloc: Global,
    table: &Table,
    partition: &Partition,
    group: u16,
) -> Result<Vec<u16>, NoMemory>
    requires partition { IsPartition table.now.states partition.now.classes.items partition.now.firsts.items }
    requires group { group < length table.now.groups }
    requires bounded { length partition.now.firsts.items ≤ most_states }
    ensures within { IfOk result (λ members. All (λ class. class < length partition.now.firsts.items) members.items) }
    ensures exact { IfOk result (λ members. (class : ℕ) → class < length partition.now.firsts.items →
        Contains members.items class ↔ IsInGroup table.now (slice_index partition.now.firsts.items class) group) }
{
    let mut members = Vec::new(alloc);
    for class in 0..partition.firsts.len() {
        let first = partition.firsts[class];
        if table.in_group(first, group) {
            members.push(class as u16)?;
        }
    }
    Ok(members)
}
