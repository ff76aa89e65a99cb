ghost use Rattle.std.specs.Prelude.{ℕ, ◌≡◌, ◌<◌, ◌≤◌, IfOk, OnOk, length};
ghost use Rattle.std.specs.Bool.{OnTrue, OnFalse};
ghost use Rattle.jm_table.specs.Tables.{IsTable};
ghost use Rattle.jm_table.specs.Partitions.{IsPartition, AreClasses, AgreesIn, AgreesBelow, IsStable, IsFiner, Tells, FindsAlike, IsTestOf, IsKeyOf};

use crate::partition::Partition;
use crate::table::Table;
use jm_model::{Letter, NoMemory};
use std::alloc::Global;

/// What two states of one class are asked.
#[derive(Clone, Copy)]
pub(crate) enum Test {
    /// Whether one is in this group and the other isn't.
    Group(u16),
    /// Whether some letter leads from them to states of different classes.
    Letters,
}

/// The coarsest classes of states that are in the same groups, where each letter leads from one class to one class.
pub(crate) fn equivalence(alloc: Global, table: &Table) -> Result<Partition, NoMemory>
    ensures table { IsTable table.now }
    ensures classes { IfOk result (λ p. AreClasses table.now p.classes.items p.firsts.items) }
    ensures agrees { IfOk result (λ p. AgreesBelow table.now p.classes.items (length table.now.groups)) }
    ensures stable { IfOk result (λ p. IsStable table.now p.classes.items) }
{
    let mut partition = Partition::whole(alloc, table.len())?;
    for group in 0..table.group_count() {
        split_by(alloc, table, &mut partition, Test::Group(group))?;
    }
    // At most a round for each state, since each but the last makes a class.
    'rounds: loop {
        let count = partition.firsts.len();
        split_by(alloc, table, &mut partition, Test::Letters)?;
        if partition.firsts.len() == count {
            return Ok(partition);
        }
    }
}

/// Splits each class in two, where the test tells some of its states from its first one.
fn split_by(
    alloc: Global,
    table: &Table,
    partition: &mut Partition,
    test: Test,
) -> Result<(), NoMemory>
    requires test { IsTestOf table.now test }
    requires table { IsTable table.now }
    requires classes { AreClasses table.now partition.old.classes.items partition.old.firsts.items }
    ensures classes { OnOk result (AreClasses table.now partition.new.classes.items partition.new.firsts.items) }
    ensures finer { OnOk result (IsFiner table.now.states partition.old.classes.items partition.new.classes.items) }
    ensures grown { OnOk result (length partition.old.firsts.items ≤ length partition.new.firsts.items) }
    ensures agrees { (group : ℕ) → test ≡ Test.Group group
        → OnOk result (AgreesIn table.now partition.new.classes.items group) }
    ensures stable { test ≡ Test.Letters → OnOk result
        (length partition.new.firsts.items ≡ length partition.old.firsts.items
        → IsStable table.now partition.new.classes.items) }
{
    let mut keys = Vec::with_capacity(alloc, table.len() as usize)?;
    for state in 0..table.len() {
        keys.push(key_of(table, partition, test, state))?;
    }
    partition.split(alloc, &keys)
}

/// The class of a state, or a number of its own for those that the test tells from the first state of their class.
fn key_of(table: &Table, partition: &Partition, test: Test, state: u16) -> u16
    requires test { IsTestOf table.now test }
    requires state { state < table.now.states }
    requires table { IsTable table.now }
    requires partition { IsPartition table.now.states partition.now.classes.items partition.now.firsts.items }
    ensures { IsKeyOf test table.now partition.now.classes.items partition.now.firsts.items state result }
{
    let class = partition.classes[state as usize];
    let first = partition.firsts[class as usize];
    if state == first {
        return class;
    }
    let is_told = match test {
        Test::Group(group) => table.in_group(state, group) != table.in_group(first, group),
        Test::Letters => letter_tells(table, &partition.classes, state, first),
    };
    if is_told {
        class + partition.firsts.len() as u16
    } else {
        class
    }
}

/// Whether some letter leads from two states to states of different classes.
fn letter_tells(table: &Table, classes: &[u16], p: u16, q: u16) -> bool
    requires p { p < table.now.states }
    requires q { q < table.now.states }
    requires classes { length classes.now ≡ table.now.states }
    ensures apart { OnTrue result (Tells Test.Letters table.now classes.now p q) }
    ensures alike { OnFalse result (FindsAlike Test.Letters table.now classes.now p q) }
{
    for letter in 0..table.letters() {
        let after_p = table.next(p, Letter(letter));
        let after_q = table.next(q, Letter(letter));
        if classes[after_p as usize] != classes[after_q as usize] {
            return true;
        }
    }
    false
}
