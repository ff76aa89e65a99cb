//! The Earley sets that a chart keeps, each of a place of the word.
ghost use Rattle.std.specs.Prelude.{ℕ, ◌≡◌, ◌<◌, ◌≤◌, ◌+◌, ◌^◌, [], false, IsTrue, IfOk, IfSome, MatchOption, Some, None, length, slice_get};
ghost use Rattle.jm_earley.specs.declared.earley_set.EarleySet.{EarleySet};
ghost use Rattle.jm_earley.specs.Kept.{IsSorted, place_at, IsPlaceNumber, IsReach, IsFollowedBy};

use crate::await_index::AwaitIndex;
use crate::continuation::Continuations;
use crate::item::Item;
use crate::set::ItemSet;
use crate::shared::Shared;
use jm_model::NoMemory;
use std::alloc::Global;
use std::marker::Model;

/// The set of a place of a word: its position, its items, those by the nonterminal that they await, and what may
/// follow there.
#[derive(Drop)]
pub(crate) struct EarleySet {
    pub position: u32,
    pub items: ItemSet,
    pub waiting: AwaitIndex,
    pub futures: Continuations,
}

/// Earley sets, by their positions in order. Copies share them. Contracts see them as a list.
#[derive(Drop)]
pub(crate) struct EarleySets {
    list: Shared<EarleySet>,
}

impl Model for EarleySets {
    ghost use Rattle.std.specs.Prelude.{List};
    ghost use Rattle.jm_earley.specs.declared.earley_set.EarleySet.{EarleySet};
    ghost use Rattle.jm_earley.specs.Kept.{IsSorted};

    ghost Value = { List EarleySet };

    ghost view = { λ s. s.list };

    ghost invariant = { λ s. IsSorted s.list };
}

impl EarleySets {
    /// No set.
    pub(crate) fn new(alloc: Global) -> EarleySets
        ensures { result ≡ [] }
    {
        EarleySets {
            list: Shared::new(alloc),
        }
    }

    pub(crate) fn len(&self) -> usize
        ensures value { result ≡ length self.now }
        ensures sorted { IsSorted self.now }
    {
        self.list.len()
    }

    /// The set of a number.
    pub(crate) fn at(&self, number: usize) -> &EarleySet
        requires { number < length self.now }
        ensures value { slice_get self.now number ≡ Some result.now }
        ensures sorted { IsSorted self.now }
    {
        self.list.at(number)
    }

    /// The set at a position, if it is kept.
    pub(crate) fn find(&self, position: u32) -> Option<&EarleySet>
        ensures { MatchOption result (place_at self.now position ≡ None)
            (λ place. place_at self.now position ≡ Some place.now) }
    {
        match self.number_of(position) {
            Some(number) => Some(self.at(number)),
            None => None,
        }
    }

    /// The number of the set at a position, if it is kept.
    fn number_of(&self, position: u32) -> Option<usize>
        ensures value { MatchOption result ((number : ℕ) → IsPlaceNumber self.now position number
            → ⊥) (λ number. IsPlaceNumber self.now position number) }
        ensures small { IfSome result (λ number. number + 1 < 2 ^ 64) }
        ensures sorted { IsSorted self.now }
    {
        // Where no set was left out, numbers are positions.
        let number = position as usize;
        if number < self.len() && self.at(number).position == position {
            return Some(number);
        }
        if self.is_passed(position, self.len()) {
            self.search(position)
        } else {
            None
        }
    }

    /// The number of the set at a position, by halves.
    fn search(&self, position: u32) -> Option<usize>
        ensures value { MatchOption result ((number : ℕ) → IsPlaceNumber self.now position number
            → ⊥) (λ number. IsPlaceNumber self.now position number) }
        ensures small { IfSome result (λ number. number + 1 < 2 ^ 64) }
        ensures sorted { IsSorted self.now }
    {
        let mut low = 0;
        let mut high = self.len();
        'halves: while low < high {
            let middle = low + (high - low) / 2;
            let here = self.at(middle).position;
            if here == position {
                return Some(middle);
            }
            if here < position {
                low = middle + 1;
            } else {
                high = middle;
            }
        }
        None
    }

    /// A copy of the sets.
    pub(crate) fn copy(&self) -> Result<EarleySets, NoMemory>
        ensures { IfOk result (λ copy. copy ≡ self.now) }
    {
        let list = self.list.copy()?;
        Ok(EarleySets { list })
    }

    /// The sets up to the last where an item of a new one began, and the new one after them.
    pub(crate) fn followed_by(&self, place: EarleySet) -> Result<EarleySets, NoMemory>
        requires { (number : ℕ) (p : EarleySet) → slice_get self.now number ≡ Some p → p.position < place.position }
        ensures { IfOk result (IsFollowedBy self.now place) }
    {
        let count = self.reach(place.items.as_slice());
        let mut list = self.list.first(count)?;
        list.push(place)?;
        Ok(EarleySets { list })
    }

    /// The number after the last set where one of the items began.
    fn reach(&self, items: &[Item]) -> usize
        ensures { IsReach self.now items.now result }
    {
        let mut count = 0;
        for item in items {
            if self.is_passed(item.origin, count) {
                continue;
            }
            match self.number_of(item.origin) {
                Some(number) => count = number + 1,
                None => {}
            }
        }
        count
    }

    /// Whether the last of the first sets is at the position or after it.
    fn is_passed(&self, position: u32, count: usize) -> bool
        requires { count ≤ length self.now }
        ensures passed { IsTrue result → (number : ℕ) → IsPlaceNumber self.now position number → number < count }
        ensures ahead { result ≡ false → (number : ℕ) → IsPlaceNumber self.now position number → count ≤ number }
    {
        if count == 0 {
            false
        } else {
            position <= self.at(count - 1).position
        }
    }
}
