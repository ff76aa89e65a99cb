//! The items of a place: what is read is worked through item by item, until the rules add nothing.
ghost use Rattle.std.specs.Prelude.{ℕ, ◌≡◌, ◌<◌, Some, None, IfOk, OnOk};
ghost use Rattle.jm_grammar.specs.declared.grammar.GrammarSymbol.{GrammarSymbol};
ghost use Rattle.jm_earley.specs.declared.item.Item.{Item};
ghost use Rattle.jm_earley.specs.Items.{symbol_after, advanced};
ghost use Rattle.jm_earley.specs.Growth.{Grows, IsAdvancedOver, AreAdvancedOver, IsPrediction, ArePredicted, IsPredictedSet, IsWorked, IsClosure};
ghost use Rattle.jm_earley.specs.AwaitIndex.{AreWaiting, IsStepOver};

use crate::chart::Charts;
use crate::earley_set::EarleySets;
use crate::item::{Item, advanced};
use crate::rule::contains;
use crate::set::ItemSet;
use jm_grammar::GrammarSymbol;
use jm_model::NoMemory;

/// The items of a place so far, and the nonterminals whose productions are among them.
#[derive(Drop)]
struct Growth {
    set: ItemSet,
    predicted: u64,
}

impl Charts {
    /// The items that the rules make of the first ones, at a place after those kept.
    pub(crate) fn close(
        &self,
        kept: &EarleySets,
        place: u32,
        first: ItemSet,
    ) -> Result<ItemSet, NoMemory>
        ensures { AreWaiting self.now.grammar kept.now
            → IfOk result (λ set. IsClosure self.now.grammar kept.now place first set) }
    {
        let mut growth = Growth {
            set: first,
            predicted: 0,
        };
        let mut number = 0;
        while let Some(item) = growth.set.get(number) {
            self.work(kept, place, &mut growth, item)?;
            number += 1;
        }
        let Growth { set, .. } = growth;
        Ok(set)
    }

    /// Adds what the rules make of an item.
    fn work(
        &self,
        kept: &EarleySets,
        place: u32,
        growth: &mut Growth,
        item: Item,
    ) -> Result<(), NoMemory>
        requires { IsPredictedSet self.now.grammar place growth.old.predicted growth.old.set }
        ensures grows { OnOk result (Grows
            (IsStepOver self.now.grammar kept.now place item) growth.old.set growth.new.set) }
        ensures worked { OnOk result (AreWaiting self.now.grammar kept.now
            → IsWorked self.now.grammar kept.now place growth.new.set item) }
        ensures predicted { OnOk result (IsPredictedSet self.now.grammar place growth.new.predicted growth.new.set) }
    {
        match self.symbol_after(item) {
            Some(GrammarSymbol::Nonterminal(n)) => {
                self.predict(growth, place, n)?;
                if self.is_nullable(n) {
                    growth.set.add(advanced(item))?;
                }
                Ok(())
            }
            Some(GrammarSymbol::Letter(_)) => Ok(()),
            None => self.complete(kept, &mut growth.set, item),
        }
    }

    /// Adds the productions of a nonterminal that is awaited at the place.
    fn predict(&self, growth: &mut Growth, place: u32, n: u8) -> Result<(), NoMemory>
        requires small { n < 64 }
        requires predicted { IsPredictedSet self.now.grammar place growth.old.predicted growth.old.set }
        ensures grows { OnOk result (Grows (IsPrediction self.now.grammar place n) growth.old.set growth.new.set) }
        ensures all { OnOk result (ArePredicted self.now.grammar place n growth.new.set) }
        ensures predicted { OnOk result (IsPredictedSet self.now.grammar place growth.new.predicted growth.new.set) }
    {
        if contains(growth.predicted, n) {
            return Ok(());
        }
        self.begin_productions(&mut growth.set, place, n)?;
        growth.predicted |= 1 << n;
        Ok(())
    }

    /// Adds the productions of a nonterminal, with nothing spelled.
    pub(crate) fn begin_productions(
        &self,
        set: &mut ItemSet,
        place: u32,
        n: u8,
    ) -> Result<(), NoMemory>
        ensures grows { OnOk result (Grows (IsPrediction self.now.grammar place n) set.old set.new) }
        ensures all { OnOk result (ArePredicted self.now.grammar place n set.new) }
    {
        for (number, production) in self.productions().iter().enumerate() {
            if production.left == n {
                set.add(Item {
                    production: number as u16,
                    dot: 0,
                    origin: place,
                })?;
            }
        }
        Ok(())
    }

    /// Adds the items that awaited the left side of a finished item, advanced over it.
    fn complete(&self, kept: &EarleySets, set: &mut ItemSet, item: Item) -> Result<(), NoMemory>
        requires { symbol_after self.now.grammar item ≡ None }
        ensures grows { (place : ℕ) → OnOk result
            (Grows (IsStepOver self.now.grammar kept.now place item) set.old set.new) }
        ensures worked { (place : ℕ) → OnOk result (AreWaiting self.now.grammar kept.now
            → IsWorked self.now.grammar kept.now place set.new item) }
    {
        let Some(left) = self.finished_left(item) else {
            return Ok(());
        };
        let Some(from) = kept.find(item.origin) else {
            return Ok(());
        };
        self.advance_over(set, from.waiting.of(left), GrammarSymbol::Nonterminal(left))
    }

    /// Adds each item before a symbol, advanced over it.
    pub(crate) fn advance_over(
        &self,
        set: &mut ItemSet,
        from: &[Item],
        symbol: GrammarSymbol,
    ) -> Result<(), NoMemory>
        ensures grows { OnOk result (Grows (IsAdvancedOver self.now.grammar from.now symbol) set.old set.new) }
        ensures all { OnOk result (AreAdvancedOver self.now.grammar from.now symbol set.new) }
    {
        for item in from {
            if self.is_before(*item, symbol) {
                set.add(advanced(*item))?;
            }
        }
        Ok(())
    }
}
