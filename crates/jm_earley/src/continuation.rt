//! What may follow the nonterminals that are awaited at a place.
ghost use Rattle.std.specs.Prelude.{ℕ, ◌≡◌, ◌↔◌, List, All, IfOk, IsBitSet, IsTrue, slice_get};
ghost use Rattle.std.specs.List.{list_any};
ghost use Rattle.jm_earley.specs.Links.{future_at, is_known, rest_rule, start_rule, rest_rules, keeps_alive_in, keeps_alive};
ghost use Rattle.jm_grammar.specs.Grammars.{GrammarDefinition};
ghost use Rattle.jm_earley.specs.Items.{IsItemSet};
ghost use Rattle.jm_earley.specs.LetterSets.{IsExact};
ghost use Rattle.jm_earley.specs.Rules.{IsGained};
ghost use Rattle.jm_earley.specs.DeadSets.{AreDeadSets};
ghost use Rattle.jm_earley.specs.EarleySets.{AreEarlier, AreFutures, IsFutureOf, IsAliveFor};

use crate::dead::DeadSets;
use crate::earley_set::EarleySets;
use crate::item::Item;
use crate::letter_set::LetterSet;
use crate::link::{Link, behind, link_of};
use crate::rule::{Rule, gained, has, no_rule, only};
use jm_grammar::{Grammar, Production};
use jm_model::NoMemory;
use std::alloc::Global;

/// What may follow at a place, of some letters: the nonterminals that a rest may follow, those that one of one or more
/// letters may follow, and whether one or more letters may follow the word.
#[derive(Clone, Copy)]
pub(crate) struct Continuation {
    pub ends: u64,
    pub more: u64,
    pub alive: bool,
}

/// Which rests are asked for: any, or those of one or more letters, where any may follow these nonterminals.
#[derive(Clone, Copy)]
pub(crate) enum Rest {
    AnyLength,
    NotEmpty(u64),
}

/// What may follow at a place, for each set of letters.
#[derive(Drop)]
pub(crate) struct Continuations {
    futures: Vec<Continuation>,
}

impl Continuations {
    /// What may follow where these are the items, and what may follow at each earlier place.
    pub(crate) fn new(
        alloc: Global,
        grammar: &Grammar,
        sets: &DeadSets,
        items: &[Item],
        earlier: &EarleySets,
    ) -> Result<Continuations, NoMemory>
        ensures { IfOk result (λ futures. All (IsExact grammar.now.productions) sets.now.sets.items → (word : List ℕ)
            → IsItemSet grammar.now word items.now
            → AreEarlier grammar.now sets.now.sets.items word earlier.now
            → AreFutures grammar.now sets.now.sets.items word futures) }
    {
        let mut futures = Vec::new(alloc);
        for (number, set) in sets.sets().iter().enumerate() {
            let question = Question {
                grammar,
                set: *set,
                number,
                items,
                earlier,
            };
            let future = question.future(alloc)?;
            futures.push(future)?;
        }
        Ok(Continuations { futures })
    }

    /// Whether one or more letters without a dead parameter may follow.
    pub(crate) fn is_alive(&self, sets: &DeadSets, dead: u8) -> bool
        ensures { (g : GrammarDefinition) (params word : List ℕ) → AreDeadSets g.productions params sets.now
            → AreFutures g sets.now.sets.items word self.now
            → IsTrue result ↔ IsAliveFor g params dead word }
    {
        match sets.number(dead) {
            Some(number) => match self.get(number) {
                Some(future) => future.alive,
                None => false,
            },
            None => false,
        }
    }

    /// What may follow of the letters of a set.
    fn get(&self, number: usize) -> Option<Continuation>
        ensures { result ≡ slice_get self.now.futures.items number }
    {
        self.futures.get(number).copied()
    }
}

/// What may follow at an earlier place, of the letters of a set.
fn future_at(earlier: &EarleySets, number: usize, position: u32) -> Option<Continuation>
    ensures { result ≡ future_at earlier.now number position }
{
    match earlier.find(position) {
        Some(place) => place.futures.get(number),
        None => None,
    }
}

/// The rule of an item that began at the position, for the nonterminals that such a rest may follow.
fn rest_rule(
    rest: Rest,
    link: Option<Link>,
    earlier: &EarleySets,
    number: usize,
    position: u32,
) -> Rule
    ensures { result ≡ rest_rule rest link (future_at earlier.now number position) }
{
    let Some(link) = link else {
        return no_rule();
    };
    let there = future_at(earlier, number, position);
    Rule {
        gives: only(link.next),
        any: match there {
            Some(_) => 0,
            None => only(link.left),
        },
        always: is_known(rest, link, there),
    }
}

/// Whether such a rest may follow the next nonterminal of an item, by what is known where the item began.
fn is_known(rest: Rest, link: Link, there: Option<Continuation>) -> bool
    ensures { result ≡ is_known rest link there }
{
    match (rest, there) {
        (Rest::AnyLength, None) => false,
        (Rest::AnyLength, Some(there)) => has(there.ends, link.left),
        (Rest::NotEmpty(ends), None) => link.goes_on && has(ends, link.left),
        (Rest::NotEmpty(_), Some(there)) => {
            link.goes_on && has(there.ends, link.left) || has(there.more, link.left)
        }
    }
}

/// Nothing follows the start at the first place.
fn start_rule(rest: Rest, start: u8, earlier: &EarleySets) -> Rule
    ensures { result ≡ start_rule rest start earlier.now }
{
    match rest {
        Rest::AnyLength => Rule {
            gives: only(start),
            any: 0,
            always: earlier.len() == 0,
        },
        Rest::NotEmpty(_) => no_rule(),
    }
}

/// Whether the letters of the set may go on after the item.
fn keeps_alive(productions: &[Production], set: LetterSet, there: Continuation, item: Item) -> bool
    ensures { result ≡ keeps_alive_in item set there (slice_get productions.now item.production) }
{
    match productions.get(usize::from(item.production)) {
        Some(production) => {
            let symbols = behind(production.symbols.as_slice(), item.dot);
            set.can_spell(symbols)
                && (set.can_go_on(symbols) && has(there.ends, production.left)
                    || has(there.more, production.left))
        }
        None => false,
    }
}

/// What may follow, of letters of a set, at the place that has these items.
#[derive(Clone, Copy)]
struct Question<'a> {
    grammar: &'a Grammar,
    set: LetterSet,
    /// The number of the set.
    number: usize,
    items: &'a [Item],
    earlier: &'a EarleySets,
}

impl<'a> Question<'a> {
    /// The nonterminals that such a rest of letters of the set may follow.
    fn followed(&self, alloc: Global, rest: Rest) -> Result<u64, NoMemory>
        ensures { IfOk result (λ known. (n : ℕ) → IsBitSet known n
            ↔ IsGained (rest_rules self.now.grammar.now rest self.now.set self.now.number
            self.now.earlier.now self.now.items.now) n) }
    {
        let mut rules = Vec::new(alloc);
        rules.push(start_rule(rest, self.grammar.start(), self.earlier))?;
        for item in self.items {
            let link = link_of(self.grammar.productions(), self.set, *item);
            rules.push(rest_rule(rest, link, self.earlier, self.number, item.origin))?;
        }
        Ok(gained(rules.as_slice()))
    }

    /// Whether letters of the set may go on after one of the items.
    fn is_alive(&self, productions: &[Production], here: Continuation) -> bool
        ensures { result ≡ list_any
            (keeps_alive productions.now self.now.set self.now.number self.now.earlier.now here) self.now.items.now }
    {
        for item in self.items {
            let there = future_at(self.earlier, self.number, item.origin).unwrap_or(here);
            if keeps_alive(productions, self.set, there, *item) {
                return true;
            }
        }
        false
    }

    /// What may follow of the letters of the set.
    fn future(&self, alloc: Global) -> Result<Continuation, NoMemory>
        ensures { IfOk result (λ future. IsFutureOf self.now.grammar.now self.now.set self.now.number
            self.now.items.now self.now.earlier.now future) }
    {
        let ends = self.followed(alloc, Rest::AnyLength)?;
        let more = self.followed(alloc, Rest::NotEmpty(ends))?;
        let here = Continuation {
            ends,
            more,
            alive: false,
        };
        let alive = self.is_alive(self.grammar.productions(), here);
        Ok(Continuation { ends, more, alive })
    }
}
