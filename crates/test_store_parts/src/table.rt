//! An index and a table of objects that it fits.
ghost use Rattle.std.specs.Prelude.{◌≡◌, true, false, length};
ghost use Rattle.jm_index.specs.Index.{flag_of, AreBelow, AreLive};

use jm_index::{Index, fits_after_death};
use jm_model::{Binding, NoMemory};
use jm_objects::Objects;
use std::alloc::Global;
use std::marker::Model;

#[derive(Drop)]
pub(crate) struct Table {
    index: Index,
    objects: Objects,
}

impl Model for Table {
    ghost use Rattle.std.specs.Prelude.{List, Bool};
    ghost use Rattle.jm_index.specs.Index.{PairList, IsFitting};

    ghost Value = { PairList × List Bool };

    ghost view = { λ t. (t.index, t.objects) };

    ghost invariant = { λ t. IsFitting t.index t.objects };
}

impl Table {
    pub(crate) fn new(alloc: Global, objects: u32) -> Result<Table, NoMemory> {
        let objects = Objects::new(alloc, objects)?;
        Ok(Table {
            index: Index::new(alloc),
            objects,
        })
    }

    pub(crate) fn objects(&self) -> u32 {
        self.objects.len()
    }

    /// Adds a pair at the end, in the place of one of the same binding. Nothing, where an object isn't in the table.
    pub(crate) fn add(&mut self, binding: Binding, slot: usize) -> Result<(), NoMemory> {
        if within(&self.objects, &binding) {
            self.index.remove(&binding);
            self.index.add(binding, slot)?;
        }
        Ok(())
    }

    pub(crate) fn remove(&mut self, binding: &Binding) {
        self.index.remove(binding);
    }

    pub(crate) fn kill(&mut self, object: u32) {
        fits_after_death();
        if object < self.objects.len() {
            self.objects.kill(object);
        }
    }

    pub(crate) fn drop_dead(&mut self) {
        self.index.drop_dead(&self.objects);
    }

    /// The slots of the bindings of a domain that agree with this one, unless it has a dead object.
    pub(crate) fn ask(
        &self,
        domain: u8,
        binding: &Binding,
    ) -> Result<Option<Vec<usize>>, NoMemory> {
        if all_live(&self.objects, binding) {
            let slots = self.index.compatible(&self.objects, domain, binding)?;
            return Ok(Some(slots));
        }
        Ok(None)
    }
}

/// Whether the objects of a binding stand in the table.
pub(crate) fn within(objects: &Objects, binding: &Binding) -> bool
    ensures { result ≡ true → AreBelow (length objects.now) binding.now }
{
    let _mask = binding.mask();
    for p in 0..8 {
        if let Some(object) = binding.get(p)
            && object >= objects.len()
        {
            return false;
        }
    }
    true
}

/// Whether all of them are alive.
fn all_live(objects: &Objects, binding: &Binding) -> bool
    ensures { result ≡ true → AreLive objects.now binding.now }
{
    let _mask = binding.mask();
    for p in 0..8 {
        if let Some(object) = binding.get(p)
            && is_gone(objects, object)
        {
            return false;
        }
    }
    true
}

/// Whether an object is dead or isn't in the table.
fn is_gone(objects: &Objects, object: u32) -> bool
    ensures { result ≡ false → flag_of objects.now object ≡ false }
{
    object >= objects.len() || objects.is_dead(object)
}
