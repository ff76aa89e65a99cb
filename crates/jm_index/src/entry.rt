//! The entries of an index.
ghost use Rattle.std.specs.Prelude.{◌≡◌, ◌++◌, ℕ, true, false, Some, length, Contains, OnOk, OnErr, IfOk};
ghost use Rattle.std.specs.List.{filter_map};
ghost use Rattle.std.specs.Vec.{vec_capacity};
ghost use Rattle.jm_index.specs.Index.{Pair};
ghost use Rattle.jm_index.specs.Layout.{is_live_at, pair_at, slot_of, slot_at};

use crate::packed_entry::{PackedEntry, binding_in, is_kept, packed_entry_of, slot_in};
use jm_model::{Binding, NoMemory};
use std::alloc::Global;
use std::marker::Model;

/// A list that was lent has no room for one more.
#[derive(Clone, Copy)]
pub struct NoRoom;

/// A binding and its slot. One that is no longer live counts for nothing.
#[derive(Drop)]
pub(crate) struct Entry {
    packed: PackedEntry,
}

impl Model for Entry {
    ghost use Rattle.jm_index.specs.Entries.{Kept};

    ghost Value = { Kept };

    ghost use Rattle.jm_index.specs.PackedEntries.{kept_of, IsPackedEntry};

    ghost view = { λ e. kept_of e.packed };

    ghost invariant = { λ e. IsPackedEntry e.packed };
}

impl Entry {
    /// A live entry.
    pub(crate) fn new(alloc: Global, binding: &Binding, slot: usize) -> Result<Entry, NoMemory>
        ensures { IfOk result (λ entry. entry ≡ record { binding = binding.now; slot = slot; live = true }) }
    {
        let packed = packed_entry_of(alloc, binding, slot)?;
        Ok(Entry { packed })
    }

    /// An entry that isn't live.
    pub(crate) fn gone() -> Entry
        ensures { result.live ≡ false }
    {
        Entry {
            packed: PackedEntry::Gone,
        }
    }

    pub(crate) fn is_live(&self) -> bool
        ensures { result ≡ self.now.live }
    {
        is_kept(&self.packed)
    }

    pub(crate) fn number(&self) -> usize
        ensures { result ≡ self.now.slot }
    {
        slot_in(&self.packed)
    }

    pub(crate) fn binding(&self) -> Binding
        ensures { result ≡ self.now.binding }
    {
        binding_in(&self.packed)
    }

    /// The slot, if the entry is live, binds exactly the parameters of `domain` and agrees with `binding`.
    fn slot(&self, domain: u8, binding: &Binding) -> Option<usize>
        ensures { result ≡ slot_of domain binding.now self.now }
    {
        if !self.is_live() {
            return None;
        }
        let own = self.binding();
        if own.mask() == domain && own.compatible(binding) {
            Some(self.number())
        } else {
            None
        }
    }
}

/// Whether the entry at a position is live.
pub(crate) fn is_live_at(entries: &[Entry], position: usize) -> bool
    ensures { result ≡ is_live_at entries.now position }
{
    match entries.get(position) {
        Some(entry) => entry.is_live(),
        None => false,
    }
}

/// The slot of the entry at a position, if it is asked for.
fn slot_at(entries: &[Entry], domain: u8, binding: &Binding, position: usize) -> Option<usize>
    ensures { result ≡ slot_at entries.now domain binding.now position }
{
    match entries.get(position) {
        Some(entry) => entry.slot(domain, binding),
        None => None,
    }
}

/// Adds the slots of the entries at these positions that are asked for.
#[inline(always)]
pub(crate) fn add_slots_at(
    entries: &[Entry],
    domain: u8,
    binding: &Binding,
    positions: &[usize],
    slots: &mut Vec<usize>,
) -> Result<(), NoMemory>
    ensures { OnOk result (slots.new.items
        ≡ slots.old.items ++ filter_map (slot_at entries.now domain binding.now) positions.now) }
{
    for position in positions {
        if let Some(slot) = slot_at(entries, domain, binding, *position) {
            slots.push(slot)?;
        }
    }
    Ok(())
}

/// Adds the slots of the live entries at these positions, and takes no memory. Where the list is full, it ends.
pub(crate) fn add_live_slots(
    entries: &[Entry],
    positions: &[usize],
    slots: &mut Vec<usize>,
) -> Result<(), NoRoom>
    ensures kept { OnOk result ((k : ℕ) → Contains slots.old.items k → Contains slots.new.items k) }
    ensures all { OnOk result ((k : ℕ) (pair : Pair) → Contains positions.now k → pair_at entries.now k ≡ Some pair
        → Contains slots.new.items pair.slot) }
    ensures room { vec_capacity slots.new ≡ vec_capacity slots.old }
    ensures full { OnErr result (length slots.new.items ≡ vec_capacity slots.new) }
{
    for position in positions {
        add_live_slot(entries, *position, slots)?;
    }
    Ok(())
}

/// Adds the slot of the entry at a position, if it is live. It takes no memory.
fn add_live_slot(entries: &[Entry], position: usize, slots: &mut Vec<usize>) -> Result<(), NoRoom>
    ensures kept { OnOk result ((k : ℕ) → Contains slots.old.items k → Contains slots.new.items k) }
    ensures at_key { OnOk result ((pair : Pair) → pair_at entries.now position ≡ Some pair
        → Contains slots.new.items pair.slot) }
    ensures room { vec_capacity slots.new ≡ vec_capacity slots.old }
    ensures full { OnErr result (length slots.new.items ≡ vec_capacity slots.new) }
{
    if let Some(entry) = entries.get(position)
        && entry.is_live()
    {
        if slots.len() >= slots.capacity() {
            return Err(NoRoom);
        }
        slots.push_reserved(entry.number());
    }
    Ok(())
}
