//! The items of a place.
ghost use Rattle.std.specs.Prelude.{◌≡◌, ◌<◌, ◌^◌, [], IfSome, OnOk, slice_get};
ghost use Rattle.jm_earley.specs.Growth.{IsWithItem};

use crate::item::Item;
use indexmap::IndexSet;
use jm_model::NoMemory;
use std::alloc::Global;
use std::marker::Model;

/// The items of a place, without repeats, in the order in which they were added.
#[derive(Drop)]
pub(crate) struct ItemSet {
    items: IndexSet<Item>,
}

impl Model for ItemSet {
    ghost use Rattle.std.specs.Prelude.{List};
    ghost use Rattle.jm_earley.specs.declared.item.Item.{Item};

    ghost Value = { List Item };

    ghost view = { λ s. s.items.keys };
}

impl ItemSet {
    /// No item.
    pub(crate) fn new(alloc: Global) -> ItemSet
        ensures { result ≡ [] }
    {
        ItemSet {
            items: IndexSet::new(alloc),
        }
    }

    /// Adds an item, if it isn't there.
    pub(crate) fn add(&mut self, item: Item) -> Result<(), NoMemory>
        ensures { OnOk result (IsWithItem self.old item self.new) }
    {
        self.items.insert(item)?;
        Ok(())
    }

    /// The items, in order.
    pub(crate) fn as_slice(&self) -> &[Item]
        ensures { result.now ≡ self.now }
    {
        self.items.as_slice()
    }

    /// The item of a number.
    pub(crate) fn get(&self, number: usize) -> Option<Item>
        ensures value { result ≡ slice_get self.now number }
        ensures small { IfSome result (λ _. number < 2 ^ 63) }
    {
        self.items.as_slice().get(number).copied()
    }
}
