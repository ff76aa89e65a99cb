ghost use Rattle.std.specs.Prelude.{ℕ, ◌≡◌, ◌<◌, ◌*◌, ◌↔◌, List, [], ◌∷◌, ◌++◌, length, map, All, Contains, IsTrue, IfOk, OnErr};
ghost use Rattle.jm_table.specs.Tables.{IsTable, next_of, state_after_of, IsInGroup, most_groups};

use crate::number_set::NumberSet;
use jm_model::{Letter, NoMemory};
use std::alloc::Global;
use std::marker::Model;

/// So many words have a bit for each of 1,024 states.
const WORDS: usize = 16;

/// A table of transitions with groups of its states. It has at most 1,024 states, of which state 0 is the start, and
/// at most 32 letters. Contracts see it as its `Transitions`.
pub struct Table {
    letters: u8,
    states: u16,
    /// State by state, and in each letter by letter.
    next: Vec<u16>,
    groups: Vec<NumberSet<WORDS>>,
}

// Written out, so that a drop is one call wherever a table is let go.
impl Drop for Table {
    fn drop(self) {
        let Table {
            letters: _,
            states: _,
            next: _,
            groups: _,
        } = self;
    }
}

impl Model for Table {
    ghost use Rattle.jm_table.specs.Tables.{Transitions, IsTable};

    ghost Value = { Transitions };

    ghost view = { λ t. record {
      states = t.states;
      letters = t.letters;
      next = t.next.items;
      groups = t.groups.items;
    } };

    ghost invariant = { λ t. IsTable
        (record { states = t.states; letters = t.letters; next = t.next.items; groups = t.groups.items }) };
}

impl Table {
    /// A table without groups.
    pub(crate) fn new(alloc: Global, letters: u8, states: u16, next: Vec<u16>) -> Table
        requires { IsTable (record { states = states; letters = letters; next = next.items; groups = [] }) }
        ensures { result ≡ record { states = states; letters = letters; next = next.items; groups = [] } }
    {
        let groups = Vec::new(alloc);
        Table {
            letters,
            states,
            next,
            groups,
        }
    }

    /// The state after the empty word.
    pub fn start(&self) -> u16
        ensures value { result ≡ 0 }
        ensures within { result < self.now.states }
    {
        // A table has a state: the proof learns it from the fields.
        let _ = &self.states;
        0
    }

    /// How many states there are, 1 to 1,024.
    pub fn len(&self) -> u16
        ensures value { result ≡ self.now.states }
        ensures table { IsTable self.now }
    {
        self.states
    }

    /// How many letters there are, at most 32.
    pub fn letters(&self) -> u8
        ensures value { result ≡ self.now.letters }
        ensures table { IsTable self.now }
    {
        self.letters
    }

    /// How many groups there are, at most 65,535.
    pub(crate) fn group_count(&self) -> u16
        ensures { result ≡ length self.now.groups }
    {
        self.groups.len() as u16
    }

    /// What memory is taken from.
    pub(crate) fn allocator(&self) -> Global {
        *self.next.allocator()
    }

    /// The state that a letter leads to.
    pub fn next(&self, state: u16, letter: Letter) -> u16
        requires state { state < self.now.states }
        requires letter { letter.0 < self.now.letters }
        ensures value { result ≡ next_of self.now state letter.0 }
        ensures within { result < self.now.states }
    {
        self.next[state as usize * self.letters as usize + letter.0 as usize]
    }

    /// The state after a word.
    pub fn state_after(&self, word: &[Letter]) -> u16
        requires { All (λ letter. letter.0 < self.now.letters) word.now }
        ensures value { result ≡ state_after_of self.now (map (λ letter. letter.0) word.now) }
        ensures within { result < self.now.states }
    {
        let mut state = self.start();
        for letter in word {
            state = self.next(state, *letter);
        }
        state
    }

    /// Adds a group of states, and answers its number.
    pub fn add_group(&mut self, states: &[u16]) -> Result<u16, NoMemory>
        requires states { All (λ state. state < self.old.states) states.now }
        requires room { length self.old.groups < most_groups }
        ensures number { IfOk result (λ group. group ≡ length self.old.groups) }
        ensures ok { IfOk result (λ _. (members : List ℕ)
            × (self.new ≡ record self.old { groups = self.old.groups ++ members ∷ [] })
            × ((state : ℕ) → Contains members state ↔ Contains states.now state)) }
        ensures err { OnErr result (self.new ≡ self.old) }
    {
        let group = self.groups.len() as u16;
        let mut members = NumberSet::new();
        for state in states {
            members.insert(*state);
        }
        self.groups.push(members)?;
        Ok(group)
    }

    /// Whether a state is in a group.
    pub fn in_group(&self, state: u16, group: u16) -> bool
        requires state { state < self.now.states }
        requires group { group < length self.now.groups }
        ensures { IsTrue result ↔ IsInGroup self.now state group }
    {
        self.groups[group as usize].contains(state)
    }
}
