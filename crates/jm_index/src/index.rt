ghost use Rattle.std.specs.Prelude.{◌≡◌, ◌≢◌, ℕ, ◌<◌, ◌*◌, ◌/◌, Bool, List, [], ◌∷◌, ◌++◌, ◌⊎◌, true, false, length, AllPairs, Contains, IsTrue, IfOk, OnOk, OnErr};
ghost use Rattle.std.specs.Vec.{vec_capacity};
ghost use Rattle.jm_model.specs.Bindings.{mask_of, restriction};
ghost use Rattle.jm_index.specs.Index.{Pair, flag_of, Binds, IsKey, IsKeyed, AreBelow, IsFitting, AreLive, HasDied, AreListed, without, asked_slots};

use crate::entry::{Entry, NoRoom};
use crate::flags::{BLOCK, Flags};
use crate::positions::Positions;
use crate::trees::Trees;
use jm_model::{Binding, NoMemory};
use jm_objects::Objects;
use std::alloc::Global;
use std::marker::Model;

/// Pairs of a binding and a slot, each binding once, in the order in which they were added. Contracts see them as a
/// list, and beside it the objects that were dropped, and those by which the trees lead to entries.
pub struct Index {
    entries: Vec<Entry>,
    positions: Positions,
    trees: Trees,
    dropped: Flags,
    /// How many entries are live.
    live: usize,
}

// Written out, so that a drop is one call wherever an index is let go.
impl Drop for Index {
    fn drop(self) {
        let Index {
            entries: _,
            positions: _,
            trees: _,
            dropped: _,
            live: _,
        } = self;
    }
}

impl Model for Index {
    ghost use Rattle.jm_index.specs.Index.{PairList};

    ghost Value = { PairList };

    ghost use Rattle.jm_index.specs.Layout.{live_pairs, keys_of, IsIndexed};
    ghost use Rattle.jm_index.specs.Positions.{position_of};

    ghost view = { λ i. record {
      list = live_pairs i.entries.items;
      dropped = i.dropped;
      keys = keys_of i.trees;
    } };

    ghost invariant = { λ i. IsIndexed i.entries.items (position_of i.positions) i.trees i.dropped };
}

impl Index {
    /// No pair. It fits each table of objects.
    pub fn new(alloc: Global) -> Index
        ensures list { result.list ≡ [] }
        ensures fits { (dead : List Bool) → IsFitting result dead }
    {
        Index {
            entries: Vec::new(alloc),
            positions: Positions::new(alloc),
            trees: Trees::new(alloc),
            dropped: Flags::new(alloc),
            live: 0,
        }
    }

    /// Adds a pair at the end. Out of memory, the pairs are as before. The index fits what it fitted, if the
    /// objects of the binding stand in the table.
    ///
    /// Where there is no room for an entry and more than half of many entries aren't live, the index is made anew of
    /// those that are.
    pub fn add(&mut self, binding: Binding, slot: usize) -> Result<(), NoMemory>
        requires { (pair : Pair) → Contains self.old.list pair → pair.binding ≢ binding }
        ensures added { OnOk result (self.new.list ≡ self.old.list ++ record { binding = binding; slot = slot } ∷ []) }
        ensures unchanged { OnErr result (self.new.list ≡ self.old.list) }
        ensures dropped { (o : ℕ) → flag_of self.new.dropped o ≡ flag_of self.old.dropped o }
        ensures fits { (dead : List Bool) → IsFitting self.old dead → AreBelow (length dead) binding
            → IsFitting self.new dead }
    {
        self.make_room()?;
        self.append(binding, slot)
    }

    /// Makes the index anew, where the next entry would need memory while more than half of the entries aren't live.
    fn make_room(&mut self) -> Result<(), NoMemory>
        ensures list { self.new.list ≡ self.old.list }
        ensures dropped { (o : ℕ) → flag_of self.new.dropped o ≡ flag_of self.old.dropped o }
        ensures unchanged { OnErr result (self.new ≡ self.old) }
    {
        if self.is_sparse() {
            return self.rebuild();
        }
        Ok(())
    }

    /// Makes the index anew. It is a call of its own, so that what it keeps on the stack is cleared only then.
    #[inline(never)]
    fn rebuild(&mut self) -> Result<(), NoMemory>
        ensures list { self.new.list ≡ self.old.list }
        ensures dropped { (o : ℕ) → flag_of self.new.dropped o ≡ flag_of self.old.dropped o }
        ensures unchanged { OnErr result (self.new ≡ self.old) }
    {
        *self = self.rebuilt()?;
        Ok(())
    }

    /// Whether it is time for that. Since a new tree has a path for each object below its greatest, there are to be
    /// entries enough to pay for these.
    fn is_sparse(&self) -> bool {
        self.entries.len() == self.entries.capacity()
            && self.live < self.entries.len() / 2
            && self.entries.len() / 16 >= self.dropped.words()
    }

    /// An index of these pairs, with no entry that isn't live.
    fn rebuilt(&self) -> Result<Index, NoMemory>
        ensures list { IfOk result (λ index. index.list ≡ self.now.list) }
        ensures dropped { IfOk result (λ index. (o : ℕ) → flag_of index.dropped o ≡ flag_of self.now.dropped o) }
    {
        let mut index = self.emptied()?;
        for entry in &self.entries {
            if entry.is_live() {
                index.append(entry.binding(), entry.number())?;
            }
        }
        Ok(index)
    }

    /// No pair, and the same objects dropped.
    fn emptied(&self) -> Result<Index, NoMemory>
        ensures list { IfOk result (λ index. index.list ≡ []) }
        ensures dropped { IfOk result (λ index. (o : ℕ) → flag_of index.dropped o ≡ flag_of self.now.dropped o) }
    {
        let alloc = *self.entries.allocator();
        let dropped = self.dropped.copy()?;
        Ok(Index {
            entries: Vec::new(alloc),
            positions: Positions::new(alloc),
            trees: Trees::new(alloc),
            dropped,
            live: 0,
        })
    }

    /// Adds a pair as the last entry. The entry comes to live last, so that it counts for nothing until then.
    fn append(&mut self, binding: Binding, slot: usize) -> Result<(), NoMemory>
        requires { (pair : Pair) → Contains self.old.list pair → pair.binding ≢ binding }
        ensures added { OnOk result (self.new.list ≡ self.old.list ++ record { binding = binding; slot = slot } ∷ []) }
        ensures unchanged { OnErr result (self.new.list ≡ self.old.list) }
        ensures dropped { (o : ℕ) → flag_of self.new.dropped o ≡ flag_of self.old.dropped o }
        ensures keyed { IsKeyed self.new }
    {
        let entry = Entry::new(*self.entries.allocator(), &binding, slot)?;
        self.dropped.cover(&binding)?;
        let position = self.entries.len();
        self.entries.push(Entry::gone())?;
        self.trees.file_all(&self.dropped, &binding, position)?;
        self.positions.insert(&binding, position)?;
        self.entries[position] = entry;
        self.live = self.live.saturating_add(1);
        Ok(())
    }

    /// Takes the pair of a binding out, where it is there. The index fits what it fitted.
    pub fn remove(&mut self, binding: &Binding)
        ensures list { self.new.list ≡ without binding.now self.old.list }
        ensures absent { (pair : Pair) → Contains self.new.list pair → pair.binding ≢ binding.now }
        ensures dropped { self.new.dropped ≡ self.old.dropped }
        ensures fits { (dead : List Bool) → IsFitting self.old dead → IsFitting self.new dead }
    {
        if let Some(position) = self.positions.remove(binding) {
            self.entries[position] = Entry::gone();
            self.trees.thin_all(self.entries.as_slice(), binding);
            self.live = self.live.saturating_sub(1);
        }
    }

    /// Whether a binding has a pair.
    pub fn has(&self, binding: &Binding) -> bool
        ensures yes { result ≡ true → (pair : Pair) × Contains self.now.list pair × (pair.binding ≡ binding.now) }
        ensures no { result ≡ false → (pair : Pair) → Contains self.now.list pair → pair.binding ≢ binding.now }
        ensures distinct { AllPairs (λ a b. a.binding ≢ b.binding) self.now.list }
    {
        let _entries = &self.entries;
        match self.positions.get(binding) {
            Some(_) => true,
            None => false,
        }
    }

    /// The slots of the bindings that bind exactly the parameters of `domain` and agree with `binding`, in the order
    /// in which they were added.
    ///
    /// Where `binding` binds them all, that is one look-up. Else the fewest positions are read that stand under one of
    /// the objects that are common, and all of the tree's where none is.
    pub fn compatible(
        &self,
        objects: &Objects,
        domain: u8,
        binding: &Binding,
    ) -> Result<Vec<usize>, NoMemory>
        requires fits { IsFitting self.now objects.now }
        requires live { AreLive objects.now binding.now }
        ensures slots { IfOk result (λ slots. slots.items ≡ asked_slots domain binding.now self.now.list) }
        ensures distinct { AllPairs (λ a b. a.binding ≢ b.binding) self.now.list }
    {
        let mut slots = Vec::new(*self.entries.allocator());
        self.compatible_into(objects, domain, binding, &mut slots)?;
        Ok(slots)
    }

    /// Puts the same slots in the place of those that are there, so that their room can be used again.
    pub fn compatible_into(
        &self,
        objects: &Objects,
        domain: u8,
        binding: &Binding,
        slots: &mut Vec<usize>,
    ) -> Result<(), NoMemory>
        requires fits { IsFitting self.now objects.now }
        requires live { AreLive objects.now binding.now }
        ensures slots { OnOk result (slots.new.items ≡ asked_slots domain binding.now self.now.list) }
        ensures distinct { AllPairs (λ a b. a.binding ≢ b.binding) self.now.list }
    {
        slots.clear();
        if binding.mask() == domain {
            return self.add_exact(domain, binding, binding, slots);
        }
        let common = binding.restrict(domain);
        if common.mask() == domain {
            return self.add_exact(domain, binding, &common, slots);
        }
        let path = self.trees.shortest(domain, &common);
        self.trees
            .add_slots(self.entries.as_slice(), domain, binding, path, slots)
    }

    /// Adds the slot of the pair that `compatible_into` lists where `binding` binds all parameters of `domain`, to what
    /// `common` does. No slot is there before.
    fn add_exact(
        &self,
        domain: u8,
        binding: &Binding,
        common: &Binding,
        slots: &mut Vec<usize>,
    ) -> Result<(), NoMemory>
        requires common { common.now ≡ restriction binding.now domain }
        requires all { mask_of common.now ≡ domain }
        requires none { slots.old.items ≡ [] }
        ensures slots { OnOk result (slots.new.items ≡ asked_slots domain binding.now self.now.list) }
        ensures distinct { AllPairs (λ a b. a.binding ≢ b.binding) self.now.list }
    {
        match self.positions.get(common) {
            Some(position) => {
                slots.push(self.entries[position].number())?;
                Ok(())
            }
            None => Ok(()),
        }
    }

    /// Adds the slots of the pairs that bind an object which died since the dead were dropped last, once for each such
    /// object, and takes no memory. `NoRoom` comes only where the list is full before they are all in it.
    pub fn add_slots_of_dead(&self, objects: &Objects, slots: &mut Vec<usize>) -> Result<(), NoRoom>
        ensures listed { OnOk result (AreListed self.now (HasDied self.now objects.now) slots.new.items) }
        ensures room { vec_capacity slots.new ≡ vec_capacity slots.old }
        ensures full { OnErr result (length slots.new.items ≡ vec_capacity slots.new) }
    {
        for block in 0..objects.len().div_ceil(BLOCK) {
            if !self.has_dropped_block(objects, block) {
                self.add_slots_of_dead_in(objects, block, slots)?;
            }
        }
        Ok(())
    }

    /// Adds the slots for the objects of a block of 64 words.
    fn add_slots_of_dead_in(
        &self,
        objects: &Objects,
        block: u32,
        slots: &mut Vec<usize>,
    ) -> Result<(), NoRoom>
        requires { BLOCK * block < length objects.now }
        ensures kept { OnOk result ((k : ℕ) → Contains slots.old.items k → Contains slots.new.items k) }
        ensures all { OnOk result
            (AreListed self.now (λ o. (o / BLOCK ≡ block) × HasDied self.now objects.now o) slots.new.items) }
        ensures room { vec_capacity slots.new ≡ vec_capacity slots.old }
        ensures full { OnErr result (length slots.new.items ≡ vec_capacity slots.new) }
    {
        let len = objects.len().div_ceil(64);
        let first = 64 * block;
        for index in first..len.min(first.saturating_add(64)) {
            if !self.has_dropped(objects, index) {
                self.add_slots_of_dead_at(objects, index, slots)?;
            }
        }
        Ok(())
    }

    /// Adds the slots for the 64 objects of a word of the table.
    fn add_slots_of_dead_at(
        &self,
        objects: &Objects,
        index: u32,
        slots: &mut Vec<usize>,
    ) -> Result<(), NoRoom>
        requires { 64 * index < length objects.now }
        ensures kept { OnOk result ((k : ℕ) → Contains slots.old.items k → Contains slots.new.items k) }
        ensures all { OnOk result
            (AreListed self.now (λ o. (o / 64 ≡ index) × HasDied self.now objects.now o) slots.new.items) }
        ensures room { vec_capacity slots.new ≡ vec_capacity slots.old }
        ensures full { OnErr result (length slots.new.items ≡ vec_capacity slots.new) }
    {
        let _len = objects.len();
        let mut left = self.dropped.news(objects, index);
        while left > 0 {
            let bit = left.trailing_zeros();
            self.add_slots_of(64 * index + bit, slots)?;
            left &= !(1 << bit);
        }
        Ok(())
    }

    /// Adds the slots of the pairs that bind an object, if it wasn't dropped, and takes no memory. `NoRoom` comes only
    /// where the list is full before they are all in it.
    pub fn add_slots_of(&self, object: u32, slots: &mut Vec<usize>) -> Result<(), NoRoom>
        ensures kept { OnOk result ((k : ℕ) → Contains slots.old.items k → Contains slots.new.items k) }
        ensures all { OnOk result
            (AreListed self.now (λ o. (o ≡ object) × (flag_of self.now.dropped o ≡ false)) slots.new.items) }
        ensures room { vec_capacity slots.new ≡ vec_capacity slots.old }
        ensures full { OnErr result (length slots.new.items ≡ vec_capacity slots.new) }
    {
        let entries = self.entries.as_slice();
        for tree in 0..self.trees.len() {
            self.trees
                .add_live_slots(entries, tree, object as usize + 1, slots)?;
        }
        Ok(())
    }

    /// Drops an object, where it has a flag.
    fn drop_key(&mut self, object: u32)
        requires { IsKeyed self.old }
        ensures list { self.new.list ≡ self.old.list }
        ensures gone { IsKey self.new object → ⊥ }
        ensures fewer { (o : ℕ) → IsKey self.new o → IsKey self.old o }
        ensures keyed { IsKeyed self.new }
        ensures only { (o : ℕ) → flag_of self.new.dropped o ≡ true
            → (flag_of self.old.dropped o ≡ true) ⊎ (o ≡ object) }
    {
        if self.dropped.has(object) && !self.dropped.is_set(object) {
            self.dropped.set(object);
            self.trees.clear(object);
        }
    }

    /// Drops an object, where it is dead and has a flag.
    fn drop_dead_key(&mut self, objects: &Objects, object: u32)
        requires { IsKeyed self.old }
        ensures list { self.new.list ≡ self.old.list }
        ensures gone { flag_of objects.now object ≡ true → IsKey self.new object → ⊥ }
        ensures fewer { (o : ℕ) → IsKey self.new o → IsKey self.old o }
        ensures keyed { IsKeyed self.new }
        ensures only { (o : ℕ) → flag_of self.new.dropped o ≡ true
            → (flag_of self.old.dropped o ≡ true) ⊎ (flag_of objects.now o ≡ true) }
    {
        if object < objects.len() && objects.is_dead(object) {
            self.drop_key(object);
        }
    }

    /// Lets go of the paths of dead objects. The pairs stay, and the index fits what it fitted. It takes no memory.
    pub fn drop_dead(&mut self, objects: &Objects)
        requires { IsFitting self.old objects.now }
        ensures list { self.new.list ≡ self.old.list }
        ensures keys { (o : ℕ) → IsKey self.new o → flag_of objects.now o ≡ false }
        ensures fits { IsFitting self.new objects.now }
    {
        for block in 0..objects.len().div_ceil(BLOCK) {
            if !self.has_dropped_block(objects, block) {
                self.drop_dead_in(objects, block);
            }
        }
    }

    /// Drops the dead among the objects of a block of 64 words.
    fn drop_dead_in(&mut self, objects: &Objects, block: u32)
        requires block { BLOCK * block < length objects.now }
        requires keyed { IsKeyed self.old }
        ensures list { self.new.list ≡ self.old.list }
        ensures gone { (o : ℕ) → o / BLOCK ≡ block → flag_of objects.now o ≡ true → IsKey self.new o → ⊥ }
        ensures fewer { (o : ℕ) → IsKey self.new o → IsKey self.old o }
        ensures keyed { IsKeyed self.new }
        ensures only { (o : ℕ) → flag_of self.new.dropped o ≡ true
            → (flag_of self.old.dropped o ≡ true) ⊎ (flag_of objects.now o ≡ true) }
    {
        let len = objects.len().div_ceil(64);
        let first = 64 * block;
        for index in first..len.min(first.saturating_add(64)) {
            if !self.has_dropped(objects, index) {
                self.drop_dead_at(objects, index);
            }
        }
    }

    /// Whether of 64 objects, those of a word of the table, no dead one is a key, and each one in a pair was dropped.
    fn has_dropped(&self, objects: &Objects, index: u32) -> bool
        requires { 64 * index < length objects.now }
        ensures keys { IsTrue result → (o : ℕ) → o / 64 ≡ index → flag_of objects.now o ≡ true → IsKey self.now o → ⊥ }
        ensures pairs { IsTrue result → (pair : Pair) (o : ℕ) → Contains self.now.list pair → Binds pair.binding o
            → o / 64 ≡ index → flag_of objects.now o ≡ true → flag_of self.now.dropped o ≡ true }
    {
        self.dropped.has_dead(objects, index)
    }

    /// Whether of the objects of a block of 64 words no dead one is a key, and each one in a pair was dropped.
    fn has_dropped_block(&self, objects: &Objects, block: u32) -> bool
        requires { BLOCK * block < length objects.now }
        ensures keys { IsTrue result → (o : ℕ) → o / BLOCK ≡ block → flag_of objects.now o ≡ true
            → IsKey self.now o → ⊥ }
        ensures pairs { IsTrue result → (pair : Pair) (o : ℕ) → Contains self.now.list pair → Binds pair.binding o
            → o / BLOCK ≡ block → flag_of objects.now o ≡ true → flag_of self.now.dropped o ≡ true }
    {
        self.dropped.has_dead_of_block(objects, block)
    }

    /// Drops the dead among the 64 objects of a word of the table.
    fn drop_dead_at(&mut self, objects: &Objects, index: u32)
        requires index { 64 * index < length objects.now }
        requires keyed { IsKeyed self.old }
        ensures list { self.new.list ≡ self.old.list }
        ensures gone { (o : ℕ) → o / 64 ≡ index → flag_of objects.now o ≡ true → IsKey self.new o → ⊥ }
        ensures fewer { (o : ℕ) → IsKey self.new o → IsKey self.old o }
        ensures keyed { IsKeyed self.new }
        ensures only { (o : ℕ) → flag_of self.new.dropped o ≡ true
            → (flag_of self.old.dropped o ≡ true) ⊎ (flag_of objects.now o ≡ true) }
    {
        let _len = objects.len();
        let mut left = self.dropped.news(objects, index);
        while left > 0 {
            let bit = left.trailing_zeros();
            self.drop_dead_key(objects, 64 * index + bit);
            left &= !(1 << bit);
        }
    }
}
