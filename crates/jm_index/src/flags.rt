//! Flags of objects. One that has none is unset.
ghost use Rattle.std.specs.Prelude.{◌≡◌, ℕ, ◌≤◌, ◌<◌, ◌*◌, ◌/◌, ◌%◌, OnOk, IfOk, IsTrue, true, false, [], length, slice_set};
ghost use Rattle.jm_index.specs.Index.{flag_of, AreBelow};
ghost use Rattle.std.specs.Int.{bit_at};

use crate::key::bound_from;
use jm_model::{Binding, NoMemory};
use jm_objects::Objects;
use std::alloc::Global;
use std::marker::Model;

/// How many objects have their flags in a block of 64 words.
pub(crate) const BLOCK: u32 = 4096;

/// Flags, 64 in a word. Contracts see them as a list.
#[derive(Drop)]
pub(crate) struct Flags {
    words: Vec<u64>,
}

impl Model for Flags {
    ghost use Rattle.std.specs.Prelude.{List, Bool, length, ◌*◌};
    ghost use Rattle.jm_objects.specs.Flags.{flags_of};

    ghost Value = { List Bool };

    ghost view = { λ f. flags_of (64 * length f.words.items) f.words.items };
}

impl Flags {
    /// No flag.
    pub(crate) fn new(alloc: Global) -> Flags
        ensures { result ≡ [] }
    {
        Flags {
            words: Vec::new(alloc),
        }
    }

    /// A copy of the flags.
    pub(crate) fn copy(&self) -> Result<Flags, NoMemory>
        ensures { IfOk result (λ flags. flags ≡ self.now) }
    {
        let words = Vec::from_slice(*self.words.allocator(), self.words.as_slice())?;
        Ok(Flags { words })
    }

    /// How many words of 64 flags there are.
    pub(crate) fn words(&self) -> usize {
        self.words.len()
    }

    /// Whether an object has a flag.
    pub(crate) fn has(&self, object: u32) -> bool
        ensures yes { result ≡ true → object < length self.now }
        ensures no { result ≡ false → length self.now ≤ object }
    {
        (object as usize) / 64 < self.words.len()
    }

    /// An object's flag.
    pub(crate) fn is_set(&self, object: u32) -> bool
        ensures { result ≡ flag_of self.now object }
    {
        match self.words.get(object as usize / 64) {
            Some(word) => (*word >> (object % 64)) % 2 == 1,
            None => false,
        }
    }

    /// The dead ones among 64 objects, those of a word of the table, as bits, without those whose flags are set.
    pub(crate) fn news(&self, objects: &Objects, index: u32) -> u64
        requires { 64 * index < length objects.now }
        ensures { (o : ℕ) → o / 64 ≡ index → flag_of objects.now o ≡ true → flag_of self.now o ≡ false
            → bit_at result (o % 64) ≡ 1 }
    {
        let word = objects.word(index);
        let known = self.words.as_slice();
        let place = index as usize;
        if place < known.len() {
            return word & !known[place];
        }
        word
    }

    /// Sets an object's flag.
    pub(crate) fn set(&mut self, object: u32)
        requires { object < length self.old }
        ensures { self.new ≡ slice_set self.old object true }
    {
        let index = object as usize / 64;
        let word = self.words[index];
        self.words[index] = word | 1 << (object % 64);
    }

    /// Makes flags for the objects of a binding, where there are none.
    pub(crate) fn cover(&mut self, binding: &Binding) -> Result<(), NoMemory>
        ensures unchanged { (o : ℕ) → flag_of self.new o ≡ flag_of self.old o }
        ensures longer { length self.old ≤ length self.new }
        ensures in_range { OnOk result (AreBelow (length self.new) binding.now) }
    {
        let mut from = 0;
        while let Some(bound) = bound_from(binding, from) {
            self.cover_object(bound.object)?;
            from = bound.p + 1;
        }
        Ok(())
    }

    fn cover_object(&mut self, object: u32) -> Result<(), NoMemory>
        ensures unchanged { (o : ℕ) → flag_of self.new o ≡ flag_of self.old o }
        ensures longer { length self.old ≤ length self.new }
        ensures in_range { OnOk result (object < length self.new) }
    {
        while !self.has(object) {
            self.lengthen()?;
        }
        Ok(())
    }

    /// Makes 64 flags more.
    fn lengthen(&mut self) -> Result<(), NoMemory>
        ensures unchanged { (o : ℕ) → flag_of self.new o ≡ flag_of self.old o }
        ensures longer { length self.old ≤ length self.new }
        ensures more { OnOk result (length self.old < length self.new) }
    {
        self.words.push(0)?;
        Ok(())
    }

    /// Whether of 64 objects, those of a word of the table, each dead one that has a flag has it set.
    pub(crate) fn has_dead(&self, objects: &Objects, index: u32) -> bool
        requires { 64 * index < length objects.now }
        ensures { IsTrue result → (o : ℕ) → o / 64 ≡ index → flag_of objects.now o ≡ true → o < length self.now
            → flag_of self.now o ≡ true }
    {
        let dead = objects.word(index);
        match self.words.get(index as usize) {
            Some(known) => dead | *known == *known,
            None => true,
        }
    }

    /// Whether of the objects of a block of 64 words each dead one that has a flag has it set.
    pub(crate) fn has_dead_of_block(&self, objects: &Objects, block: u32) -> bool
        requires { BLOCK * block < length objects.now }
        ensures { IsTrue result → (o : ℕ) → o / BLOCK ≡ block → flag_of objects.now o ≡ true → o < length self.now
            → flag_of self.now o ≡ true }
    {
        let known = self.words.as_slice();
        let dead = objects.words();
        let first = 64 * block as usize;
        let end = known.len().min(dead.len()).min(first + 64);
        let mut news = 0;
        for index in first..end {
            news |= dead[index] & !known[index];
        }
        news == 0
    }
}
