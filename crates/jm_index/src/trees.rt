//! The trees of an index, by the set of bound parameters.
ghost use Rattle.std.specs.Prelude.{◌≡◌, ℕ, ◌≤◌, ◌<◌, ◌+◌, ◌++◌, ◌^◌, ◌==◌, [], Some, Contains, OnOk, OnErr, length, false, ◌⊎◌, if◌then◌else◌};
ghost use Rattle.jm_model.specs.Bindings.{mask_of};
ghost use Rattle.std.specs.List.{filter_map};
ghost use Rattle.std.specs.Vec.{vec_capacity};
ghost use Rattle.jm_index.specs.Index.{Pair, flag_of, AreBelow};
ghost use Rattle.jm_index.specs.Layout.{Rises, IsFiled, pair_at, slot_at, posting_at, IsPath, IsPathBelow, AllFiled, AreFiled, AreThinned};

use crate::entry::{Entry, NoRoom, add_live_slots, add_slots_at};
use crate::flags::Flags;
use crate::key::bound_from;
use crate::tree::Tree;
use jm_model::{Binding, NoMemory};
use std::alloc::Global;
use std::marker::Model;
use std::slice;

/// Trees by the set of bound parameters. A set beyond the last has an empty one.
#[derive(Drop)]
pub(crate) struct Trees {
    trees: Vec<Tree>,
}

impl Model for Trees {
    ghost use Rattle.std.specs.Prelude.{List};
    ghost use Rattle.jm_index.specs.Postings.{Paths};

    ghost Value = { List Paths };

    ghost view = { λ t. t.trees.items };
}

impl Trees {
    pub(crate) fn new(alloc: Global) -> Trees
        ensures { result ≡ [] }
    {
        Trees {
            trees: Vec::new(alloc),
        }
    }

    /// Makes a tree, where there is none.
    fn cover(&mut self, mask: u8) -> Result<(), NoMemory>
        ensures unchanged { (m q : ℕ) → posting_at self.new m q ≡ posting_at self.old m q }
        ensures in_range { OnOk result (mask < length self.new) }
    {
        let alloc = *self.trees.allocator();
        while self.trees.len() <= mask as usize {
            self.trees.push(Tree::new(alloc))?;
        }
        Ok(())
    }

    /// Files a position under a path of a tree.
    #[inline(always)]
    fn file(&mut self, mask: u8, path: usize, position: usize) -> Result<(), NoMemory>
        requires last { (x : ℕ) → Contains (posting_at self.old mask path) x → x ≤ position }
        requires short { path ≤ 2 ^ 32 }
        ensures filed { IsFiled position (posting_at self.old mask path) (posting_at self.new mask path) }
        ensures present { OnOk result (Contains (posting_at self.new mask path) position) }
        ensures others { (q : ℕ) → (q ≡ path → ⊥) → posting_at self.new mask q ≡ posting_at self.old mask q }
        ensures other_trees { (m q : ℕ) → (m ≡ mask → ⊥) → posting_at self.new m q ≡ posting_at self.old m q }
    {
        self.cover(mask)?;
        let tree = &mut self.trees[mask as usize];
        tree.file(path, position)
    }

    /// Files a position under an object, unless the object was dropped.
    fn file_object(
        &mut self,
        dropped: &Flags,
        mask: u8,
        object: u32,
        position: usize,
    ) -> Result<(), NoMemory>
        requires last { AllFiled (λ x. x ≤ position) self.old }
        requires flagged { object < length dropped.now }
        ensures filed { AreFiled dropped.now position self.old self.new }
        ensures present { OnOk result (flag_of dropped.now object ≡ false
            → Contains (posting_at self.new mask (object + 1)) position) }
    {
        if dropped.is_set(object) {
            return Ok(());
        }
        self.file(mask, object as usize + 1, position)
    }

    /// Files a position under all paths of a binding. Out of memory, it may stand under some of them.
    pub(crate) fn file_all(
        &mut self,
        dropped: &Flags,
        binding: &Binding,
        position: usize,
    ) -> Result<(), NoMemory>
        requires last { AllFiled (λ x. x ≤ position) self.old }
        requires flagged { AreBelow (length dropped.now) binding.now }
        ensures filed { AreFiled dropped.now position self.old self.new }
        ensures present { OnOk result ((path : ℕ) → IsPath dropped.now binding.now path
            → Contains (posting_at self.new (mask_of binding.now) path) position) }
    {
        let mask = binding.mask();
        self.file(mask, 0, position)?;
        let mut from = 0;
        while let Some(bound) = bound_from(binding, from) {
            self.file_object(dropped, mask, bound.object, position)?;
            from = bound.p + 1;
        }
        Ok(())
    }

    /// Thins out a path of a tree from which a position's entry was removed.
    fn thin(&mut self, mask: u8, path: usize, entries: &[Entry])
        ensures { AreThinned entries.now self.old self.new }
    {
        if (mask as usize) < self.trees.len() {
            let tree = &mut self.trees[mask as usize];
            tree.thin(path, entries);
        }
    }

    /// Thins out all paths of a binding whose entry was removed.
    pub(crate) fn thin_all(&mut self, entries: &[Entry], binding: &Binding)
        ensures { AreThinned entries.now self.old self.new }
    {
        let mask = binding.mask();
        self.thin(mask, 0, entries);
        let mut from = 0;
        while let Some(bound) = bound_from(binding, from) {
            self.thin(mask, bound.object as usize + 1, entries);
            from = bound.p + 1;
        }
    }

    /// Drops what stands under an object, in each tree.
    pub(crate) fn clear(&mut self, object: u32)
        ensures { (m q : ℕ) → posting_at self.new m q ≡ (if q == object + 1 then [] else posting_at self.old m q) }
    {
        for m in 0..self.trees.len() {
            let tree = &mut self.trees[m];
            tree.clear(object as usize + 1);
        }
    }

    /// How many sets of parameters may have a tree.
    pub(crate) fn len(&self) -> usize
        ensures { result ≡ length self.now }
    {
        self.trees.len()
    }

    /// Adds the slots of the entries that are asked for among those to which a path leads.
    #[inline(always)]
    pub(crate) fn add_slots(
        &self,
        entries: &[Entry],
        domain: u8,
        binding: &Binding,
        path: usize,
        slots: &mut Vec<usize>,
    ) -> Result<(), NoMemory>
        ensures slots { OnOk result (slots.new.items
            ≡ slots.old.items ++ filter_map (slot_at entries.now domain binding.now)
            (posting_at self.now domain path)) }
        ensures rising { Rises 0 (posting_at self.now domain path) }
    {
        let Some(tree) = self.trees.get(domain as usize) else {
            return Ok(());
        };
        match tree.one(path) {
            Some(position) => add_slots_at(
                entries,
                domain,
                binding,
                slice::from_ref(&position),
                slots,
            ),
            None => add_slots_at(entries, domain, binding, tree.many(path), slots),
        }
    }

    /// Adds the slots of the live entries to which a path leads, in the tree of a set's number, and takes no
    /// memory. Where the list is full, it ends.
    pub(crate) fn add_live_slots(
        &self,
        entries: &[Entry],
        tree: usize,
        path: usize,
        slots: &mut Vec<usize>,
    ) -> Result<(), NoRoom>
        ensures kept { OnOk result ((k : ℕ) → Contains slots.old.items k → Contains slots.new.items k) }
        ensures all { OnOk result ((k : ℕ) (pair : Pair) → Contains (posting_at self.now tree path) k
            → pair_at entries.now k ≡ Some pair → Contains slots.new.items pair.slot) }
        ensures room { vec_capacity slots.new ≡ vec_capacity slots.old }
        ensures full { OnErr result (length slots.new.items ≡ vec_capacity slots.new) }
    {
        let Some(tree) = self.trees.get(tree) else {
            return Ok(());
        };
        match tree.one(path) {
            Some(position) => add_live_slots(entries, slice::from_ref(&position), slots),
            None => add_live_slots(entries, tree.many(path), slots),
        }
    }

    /// The path with the fewest positions that leads to all that is above a binding.
    pub(crate) fn shortest(&self, mask: u8, binding: &Binding) -> usize
        ensures { IsPathBelow binding.now result }
    {
        let mut best = 0;
        let mut from = 0;
        while let Some(bound) = bound_from(binding, from) {
            best = self.shorter(mask, best, bound.object as usize + 1);
            from = bound.p + 1;
        }
        best
    }

    /// The one of two paths that leads to fewer positions.
    fn shorter(&self, mask: u8, one: usize, other: usize) -> usize
        ensures { (result ≡ one) ⊎ (result ≡ other) }
    {
        match self.trees.get(mask as usize) {
            Some(tree) if tree.count(other) < tree.count(one) => other,
            _ => one,
        }
    }
}
