//! The items of a place by the nonterminal that they await, for completions.
ghost use Rattle.std.specs.Prelude.{ℕ, ◌≡◌, ◌≢◌, ◌<◌, [], ◌∷◌, ◌++◌, IfOk, OnOk, slice_index_or};
ghost use Rattle.jm_earley.specs.AwaitIndex.{IsWaiting};

use crate::chart::Charts;
use crate::item::Item;
use jm_grammar::GrammarSymbol;
use jm_model::NoMemory;
use std::alloc::Global;
use std::marker::Model;

/// Lists of items by the nonterminal that they await, one for each nonterminal up to the last that is awaited.
#[derive(Drop)]
pub(crate) struct AwaitIndex {
    lists: Vec<Vec<Item>>,
}

impl Model for AwaitIndex {
    ghost use Rattle.std.specs.Prelude.{List, map};
    ghost use Rattle.jm_earley.specs.declared.item.Item.{Item};

    ghost Value = { List (List Item) };

    ghost view = { λ w. map (λ l. l.items) w.lists.items };
}

impl AwaitIndex {
    /// No item.
    fn new(alloc: Global) -> AwaitIndex
        ensures { result ≡ [] }
    {
        AwaitIndex {
            lists: Vec::new(alloc),
        }
    }

    /// Adds an item that awaits a nonterminal.
    fn add(&mut self, n: u8, item: Item) -> Result<(), NoMemory>
        ensures at_key { OnOk result (slice_index_or self.new n [] ≡ slice_index_or self.old n [] ++ item ∷ []) }
        ensures others { OnOk result ((m : ℕ) → m ≢ n → slice_index_or self.new m [] ≡ slice_index_or self.old m []) }
    {
        let alloc = *self.lists.allocator();
        'lists: while self.lists.len() <= n as usize {
            self.lists.push(Vec::new(alloc))?;
        }
        self.lists[n as usize].push(item)?;
        Ok(())
    }

    /// The items that await a nonterminal.
    pub(crate) fn of(&self, n: u8) -> &[Item]
        ensures { result.now ≡ slice_index_or self.now n [] }
    {
        if (n as usize) < self.lists.len() {
            self.lists[n as usize].as_slice()
        } else {
            &[]
        }
    }
}

impl Charts {
    /// The items by the nonterminal that they await.
    pub(crate) fn waiting(&self, alloc: Global, items: &[Item]) -> Result<AwaitIndex, NoMemory>
        ensures { IfOk result (IsWaiting self.now.grammar items.now) }
    {
        let mut waiting = AwaitIndex::new(alloc);
        for item in items {
            match self.symbol_after(*item) {
                Some(GrammarSymbol::Nonterminal(n)) => waiting.add(n, *item)?,
                Some(GrammarSymbol::Letter(_)) => {}
                None => {}
            }
        }
        Ok(waiting)
    }
}
