//! A list of slots.
ghost use Rattle.std.specs.Prelude.{ℕ, ◌≡◌, ◌≢◌, ◌&&◌, ◌==◌, ◌⊎◌, ◌<◌, List, AllPairs, Contains, IsTrue, true, false, filter, nat_lt, length, slice_index_or};
ghost use Rattle.std.specs.Int.{bit_at};
ghost use Rattle.jm_model.specs.Bindings.{is_below, mask_of};
ghost use Rattle.jm_awake.specs.Awake.{SlotList, IsListOf, is_there, is_listed, path_of, fresh};
ghost use Rattle.jm_awake.specs.Added.{IsAddedTo};

use crate::card::{Card, Listed};
use crate::path::path_within;
use jm_model::Binding;
use std::alloc::Global;
use std::marker::Model;

/// Slots of monitors above a binding that a letter may change.
#[derive(Drop)]
pub(crate) struct AwakeList {
    letter: u32,
    binding: Binding,
    is_kept: bool,
    entries: Vec<Listed>,
}

impl Model for AwakeList {
    ghost use Rattle.jm_awake.specs.Awake.{SlotList};

    ghost Value = { SlotList };

    ghost view = { λ l. record {
      letter = l.letter;
      binding = l.binding;
      is_kept = l.is_kept;
      entries = l.entries.items;
    } };
}

impl AwakeList {
    /// A list without slots, which isn't kept.
    pub(crate) fn new(alloc: Global) -> AwakeList
        ensures { result.is_kept ≡ false }
    {
        AwakeList {
            letter: 0,
            binding: Binding::empty(),
            is_kept: false,
            entries: Vec::new(alloc),
        }
    }

    /// Whether the list is kept, and that of a letter and a binding.
    pub(crate) fn is_of(&self, letter: u32, binding: &Binding) -> bool
        ensures { result ≡ true → IsListOf self.now letter binding.now }
    {
        self.is_kept && self.letter == letter && self.binding.is_same(binding)
    }

    /// Whether the list is kept, that of a letter, and its binding lies below an instance.
    pub(crate) fn takes(&self, letter: u32, instance: &Binding) -> bool
        ensures { result ≡ (self.now.is_kept && ((self.now.letter == letter)
            && is_below self.now.binding instance.now)) }
    {
        self.is_kept && (self.letter == letter && self.binding.le(instance))
    }

    /// Whether the list is kept, that of a letter, and its binding has this path.
    pub(crate) fn is_under(&self, letter: u32, path: usize) -> bool {
        self.is_kept
            && self.letter == letter
            && path_within(&self.binding, self.binding.mask()) == path
    }

    /// Makes it the list of a letter and a binding, with these slots.
    pub(crate) fn keep(&mut self, letter: u32, binding: &Binding, entries: Vec<Listed>)
        ensures { self.new ≡ record {
          letter = letter;
          binding = binding.now;
          is_kept = true;
          entries = entries.items;
        } }
    {
        self.letter = letter;
        self.binding = *binding;
        self.is_kept = true;
        self.entries = entries;
    }

    /// Lets the list go.
    pub(crate) fn let_go(&mut self)
        ensures { self.new.is_kept ≡ false }
    {
        self.is_kept = false;
        self.entries = Vec::new(*self.entries.allocator());
    }

    /// What is listed.
    pub(crate) fn entries(&self) -> &[Listed]
        ensures { result.now ≡ self.now.entries }
    {
        self.entries.as_slice()
    }

    /// Drops what doesn't count any more, and what isn't in the lists of the letter any more.
    pub(crate) fn retain_listed(&mut self, cards: &[Card])
        ensures { self.new ≡ record self.old {
          entries = filter (is_listed cards.now self.old.letter) self.old.entries;
        } }
    {
        let letter = self.letter;
        self.entries
            .retain(|listed| is_listed(cards, listed, letter));
    }

    /// Adds a slot. It takes memory only if it may. Where there is no room, the list is let go.
    pub(crate) fn add(&mut self, listed: Listed, cards: &[Card], grows: bool)
        ensures { self.new.is_kept ≡ true → IsAddedTo cards.now listed self.old self.new }
    {
        if self.entries.len() >= self.entries.capacity() {
            self.make_room(cards, grows);
        }
        if self.entries.len() < self.entries.capacity() {
            self.entries.push_reserved(listed);
        } else {
            self.let_go();
        }
    }

    /// Drops what counts for nothing, and makes room for more, if it may and much is left, unless out of memory.
    fn make_room(&mut self, cards: &[Card], grows: bool)
        ensures { self.new ≡ record self.old { entries = filter (is_there cards.now) self.old.entries } }
    {
        retain_there(&mut self.entries, cards);
        if grows && self.entries.len() >= self.entries.capacity() / 2 {
            let _room = self.entries.reserve(8);
        }
    }
}

/// Drops what was listed of monitors that are gone.
fn retain_there(entries: &mut Vec<Listed>, cards: &[Card])
    ensures { entries.new.items ≡ filter (is_there cards.now) entries.old.items }
{
    entries.retain(|listed| is_there(cards, listed));
}

/// Whether a listed slot still has the monitor that was listed.
fn is_there(cards: &[Card], listed: &Listed) -> bool
    ensures { result ≡ is_there cards.now listed.now }
{
    match cards.get(listed.slot()) {
        Some(card) => card.is_there(listed),
        None => false,
    }
}

/// Whether a listed slot still has the monitor that was listed, and is in the lists of a letter.
fn is_listed(cards: &[Card], listed: &Listed, letter: u32) -> bool
    ensures { result ≡ is_listed cards.now letter listed.now }
{
    match cards.get(listed.slot()) {
        Some(card) => card.is_there(listed) && card.is_on(letter),
        None => false,
    }
}
