//! Charts and what is asked of them (Earley 1970).
ghost use Rattle.std.specs.Prelude.{ℕ, ◌≡◌, ◌==◌, ◌<◌, ◌≤◌, ◌+◌, ◌-◌, ◌↔◌, List, [], ◌∷◌, ◌++◌, Some, None, IsTrue, IfSome, IfOk, map, length, slice_get, if◌then◌else◌};
ghost use Rattle.jm_grammar.specs.declared.grammar.GrammarSymbol.{GrammarSymbol};
ghost use Rattle.jm_grammar.specs.Grammars.{IsSmall, IsSmallSymbol};
ghost use Rattle.jm_grammar.specs.Meanings.{IsWord, Derives, IsHopeless};
ghost use Rattle.jm_earley.specs.Items.{symbol_after, finished_left};
ghost use Rattle.jm_earley.specs.declared.earley_set.EarleySet.{EarleySet};
ghost use Rattle.jm_earley.specs.Kept.{IsSorted};
ghost use Rattle.jm_earley.specs.AwaitIndex.{AreWaiting};
ghost use Rattle.jm_earley.specs.Charts.{AreBelow, IsChartOf, IsChartWith};
ghost use Rattle.jm_earley.specs.EarleySets.{IsAliveFor};

use crate::continuation::Continuations;
use crate::dead::DeadSets;
use crate::earley_set::{EarleySet, EarleySets};
use crate::item::Item;
use crate::rule::contains;
use crate::set::ItemSet;
use jm_events::EventTable;
use jm_grammar::{Grammar, GrammarSymbol, Production};
use jm_model::{Letter, NoMemory};
use std::alloc::Global;
use std::marker::Model;

/// What the charts of a grammar have in common: the grammar, reduced, and the parameters of its letters. Contracts see
/// it as its `ChartsDefinition`.
#[derive(Drop)]
pub struct Charts {
    grammar: Grammar,
    params: Vec<u8>,
    /// The nonterminals that spell the empty word: bit n stands for nonterminal n.
    nullable: u64,
    /// The sets of letters that sets of dead parameters leave.
    dead: DeadSets,
}

impl Model for Charts {
    ghost use Rattle.jm_earley.specs.Charts.{ChartsDefinition, IsReduced};
    ghost use Rattle.jm_earley.specs.DeadSets.{AreDeadSets};

    ghost Value = { ChartsDefinition };

    ghost view = { λ c. record { grammar = c.grammar; params = c.params.items; letter_sets = c.dead.sets.items } };

    ghost invariant = { λ c. IsReduced c.grammar c.params.items c.nullable
        × AreDeadSets c.grammar.productions c.params.items c.dead };
}

/// The places of a word that may still matter: the last, and those where items of these places began. Copies share
/// them. Contracts see it as its `ChartDefinition`, which stands for a word by `IsChartOf`.
#[derive(Drop)]
pub struct Chart {
    places: EarleySets,
}

impl Model for Chart {
    ghost use Rattle.std.specs.Prelude.{length, ◌<◌};
    ghost use Rattle.jm_earley.specs.Charts.{ChartDefinition};

    ghost Value = { ChartDefinition };

    ghost view = { λ c. record { places = c.places } };

    ghost invariant = { λ c. 0 < length c.places };
}

impl Charts {
    /// Charts of a grammar, whose letters are events of the table. They are those of the reduced grammar, which has the
    /// same words.
    pub fn new(alloc: Global, grammar: Grammar, table: &EventTable) -> Result<Charts, NoMemory>
        requires { AreBelow grammar.productions (length table.now.events) }
        ensures words { IfOk result (λ c. (word : List ℕ) → IsWord c.grammar word ↔ IsWord grammar word) }
        ensures params { IfOk result (λ c. c.params ≡ map (λ e. e.mask) table.now.events) }
    {
        Charts::of(alloc, &grammar, table)
    }

    /// Charts of a grammar that is lent, otherwise as `new` makes them.
    pub fn of(alloc: Global, grammar: &Grammar, table: &EventTable) -> Result<Charts, NoMemory>
        requires { AreBelow grammar.now.productions (length table.now.events) }
        ensures words { IfOk result (λ c. (word : List ℕ) → IsWord c.grammar word ↔ IsWord grammar.now word) }
        ensures params { IfOk result (λ c. c.params ≡ map (λ e. e.mask) table.now.events) }
    {
        let grammar = grammar.reduce()?;
        let params = table.masks(alloc)?;
        let nullable = grammar.productive(0);
        let dead = DeadSets::new(alloc, &grammar, params.as_slice())?;
        Ok(Charts {
            grammar,
            params,
            nullable,
            dead,
        })
    }

    /// The parameters of each letter.
    pub fn params(&self) -> &[u8]
        ensures value { result.now ≡ self.now.params }
        ensures bounded { length self.now.params ≤ 32 }
    {
        self.params.as_slice()
    }

    /// The chart of the empty word.
    pub fn begin(&self) -> Result<Chart, NoMemory>
        ensures { IfOk result (IsChartOf self.now []) }
    {
        let alloc = *self.params.allocator();
        let mut first = ItemSet::new(alloc);
        self.begin_productions(&mut first, 0, self.grammar.start())?;
        let earlier = EarleySets::new(alloc);
        let chart = self.chart_with(&earlier, 0, first)?;
        Ok(chart)
    }

    /// A chart of the same words. It shares the places with this one.
    pub fn copy(&self, chart: &Chart) -> Result<Chart, NoMemory>
        ensures { IfOk result (λ copy. copy ≡ chart.now) }
    {
        let places = chart.places.copy()?;
        Ok(Chart { places })
    }

    /// The chart of a word that has one letter more. It shares the earlier places with this one, and leaves out those
    /// that no item reaches any more. A word of 2^32 - 1 letters counts as out of memory.
    pub fn next(&self, chart: &Chart, letter: Letter) -> Result<Chart, NoMemory>
        requires { letter.0 < length self.now.params }
        ensures { (word : List ℕ) → IsChartOf self.now word chart.now
            → IfOk result (IsChartOf self.now (word ++ letter.0 ∷ [])) }
    {
        let last = chart.last();
        if last.position == u32::MAX {
            return Err(NoMemory);
        }
        let mut first = ItemSet::new(*self.params.allocator());
        let symbol = GrammarSymbol::Letter(letter);
        self.advance_over(&mut first, last.items.as_slice(), symbol)?;
        self.chart_with(&chart.places, last.position + 1, first)
    }

    /// Whether the word is in the language of the grammar.
    pub fn matches(&self, chart: &Chart) -> bool
        ensures { (word : List ℕ) → IsChartOf self.now word chart.now → IsTrue result ↔ IsWord self.now.grammar word }
    {
        let items = chart.last().items.as_slice();
        items.iter().any(|item| {
            item.origin == 0 && self.finished_left(*item) == Some(self.grammar.start())
        })
    }

    /// Whether no word that begins with the word, itself included, is in the language of the grammar.
    pub fn fails(&self, chart: &Chart) -> bool
        ensures { (word : List ℕ) → IsChartOf self.now word chart.now
            → IsTrue result ↔ IsHopeless self.now.grammar word }
    {
        // The grammar is reduced: the proof learns it from the fields.
        let _ = &self.grammar;
        chart.last().items.as_slice().is_empty()
    }

    /// Whether some word of one or more letters without a dead parameter, put after the word, is in the language of the
    /// grammar. Bit k of the set stands for parameter k.
    pub fn alive(&self, chart: &Chart, dead: u8) -> bool
        ensures { (word : List ℕ) → IsChartOf self.now word chart.now
            → IsTrue result ↔ IsAliveFor self.now.grammar self.now.params dead word }
    {
        chart.last().futures.is_alive(&self.dead, dead)
    }
}

impl Charts {
    /// The chart whose last place has the items that the rules make of the first ones, after earlier places.
    fn chart_with(
        &self,
        earlier: &EarleySets,
        position: u32,
        first: ItemSet,
    ) -> Result<Chart, NoMemory>
        requires { (number : ℕ) (p : EarleySet) → slice_get earlier.now number ≡ Some p → p.position < position }
        ensures { AreWaiting self.now.grammar earlier.now
            → IfOk result (IsChartWith self.now earlier.now position first) }
    {
        let items = self.close(earlier, position, first)?;
        let alloc = *self.params.allocator();
        let waiting = self.waiting(alloc, items.as_slice())?;
        let futures = Continuations::new(
            alloc,
            &self.grammar,
            &self.dead,
            items.as_slice(),
            earlier,
        )?;
        let places = earlier.followed_by(EarleySet {
            position,
            items,
            waiting,
            futures,
        })?;
        Ok(Chart { places })
    }

    pub(crate) fn productions(&self) -> &[Production]
        ensures value { result.now ≡ self.now.grammar.productions }
        ensures small { IsSmall self.now.grammar.productions self.now.grammar.start }
    {
        self.grammar.productions()
    }

    /// The symbol after the dot of an item.
    pub(crate) fn symbol_after(&self, item: Item) -> Option<GrammarSymbol>
        ensures value { result ≡ symbol_after self.now.grammar item }
        ensures small { IfSome result IsSmallSymbol }
        ensures room { IfSome result (λ _. item.dot < 32) }
    {
        let production = self.productions().get(item.production as usize)?;
        production
            .symbols
            .as_slice()
            .get(item.dot as usize)
            .copied()
    }

    /// Whether the symbol stands after the dot of an item.
    pub(crate) fn is_before(&self, item: Item, symbol: GrammarSymbol) -> bool
        ensures value { IsTrue result ↔ (symbol_after self.now.grammar item ≡ Some symbol) }
        ensures room { IsTrue result → item.dot < 32 }
    {
        match (self.symbol_after(item), symbol) {
            (Some(GrammarSymbol::Letter(next)), GrammarSymbol::Letter(letter)) => {
                next.0 == letter.0
            }
            (Some(GrammarSymbol::Nonterminal(next)), GrammarSymbol::Nonterminal(n)) => next == n,
            _ => false,
        }
    }

    /// The left side of an item whose dot is at the end.
    pub(crate) fn finished_left(&self, item: Item) -> Option<u8>
        ensures { result ≡ finished_left self.now.grammar item }
    {
        let production = self.productions().get(item.production as usize)?;
        if item.dot as usize == production.symbols.as_slice().len() {
            Some(production.left)
        } else {
            None
        }
    }

    /// Whether the nonterminal spells the empty word.
    pub(crate) fn is_nullable(&self, n: u8) -> bool
        requires { n < 64 }
        ensures { IsTrue result ↔ Derives self.now.grammar.productions n [] }
    {
        contains(self.nullable, n)
    }
}

impl Chart {
    /// The last place.
    fn last(&self) -> &EarleySet
        ensures ends { slice_get self.now.places (length self.now.places - 1) ≡ Some result.now }
        ensures sorted { IsSorted self.now.places }
    {
        self.places.at(self.places.len() - 1)
    }
}
