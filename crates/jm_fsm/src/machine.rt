ghost use Rattle.std.specs.Prelude.{◌≡◌, ◌<◌, ◌≤◌, ◌↔◌, length, IsTrue, Contains, IfOk};
ghost use Rattle.jm_fsm.specs.WellFormed.{IsMachine};
ghost use Rattle.jm_fsm.specs.Categories.{IsMember, category_names, category_count};
ghost use Rattle.jm_fsm.specs.Meanings.{destination_of, next_destination};

use jm_events::Names;
use jm_model::{Letter, NoMemory};
use std::alloc::Global;
use std::marker::Model;

/// Where a transition leads, or what is a member of an alias.
#[derive(Clone, Copy, Debug, PartialEq, Eq)]
pub enum Destination {
    /// A declared state, by its place.
    State(u16),
    /// The state `fail`.
    Fail,
}

/// A transition on an event.
#[derive(Clone, Copy)]
pub struct Transition {
    pub letter: Letter,
    pub destination: Destination,
}

/// A state. Contracts see it as its `StateDefinition`.
#[derive(Drop)]
pub struct State {
    pub(crate) name: String,
    pub(crate) transitions: Vec<Transition>,
    pub(crate) fallback: Option<Destination>,
}

impl Model for State {
    ghost use Rattle.std.specs.Prelude.{string_bytes};
    ghost use Rattle.jm_fsm.specs.Machines.{StateDefinition};

    ghost Value = { StateDefinition };

    ghost view = { λ s. record {
      name = string_bytes s.name;
      transitions = s.transitions.items;
      fallback = s.fallback;
    } };
}

impl State {
    /// Where a letter leads.
    fn destination(&self, letter: Letter) -> Destination
        ensures { result ≡ destination_of self.now letter.0 }
    {
        let fallback = self.fallback.unwrap_or(Destination::Fail);
        let listed = self.transitions.iter().find(|t| t.letter.0 == letter.0);
        match listed {
            Some(transition) => transition.destination,
            None => fallback,
        }
    }
}

/// A set of states under a name. Contracts see it as its `AliasDefinition`.
#[derive(Drop)]
pub struct Alias {
    pub(crate) name: String,
    pub(crate) members: Vec<Destination>,
}

impl Model for Alias {
    ghost use Rattle.std.specs.Prelude.{string_bytes};
    ghost use Rattle.jm_fsm.specs.Machines.{AliasDefinition};

    ghost Value = { AliasDefinition };

    ghost view = { λ a. record { name = string_bytes a.name; members = a.members.items } };
}

impl Alias {
    /// Whether a state is a member.
    fn contains(&self, destination: Destination) -> bool
        ensures { IsTrue result ↔ Contains self.now.members destination }
    {
        for member in &self.members {
            if *member == destination {
                return true;
            }
        }
        false
    }
}

/// A state machine. Contracts see it as its `StateMachine`.
#[derive(Drop)]
pub struct Fsm {
    states: Vec<State>,
    aliases: Vec<Alias>,
}

impl Model for Fsm {
    ghost use Rattle.jm_fsm.specs.Machines.{StateMachine};
    ghost use Rattle.jm_fsm.specs.WellFormed.{IsMachine};

    ghost Value = { StateMachine };

    ghost view = { λ m. record { states = m.states.items; aliases = m.aliases.items } };

    ghost invariant = { λ m. IsMachine (record { states = m.states.items; aliases = m.aliases.items }) };
}

impl Fsm {
    /// The machine of these states and aliases.
    pub(crate) fn new(states: Vec<State>, aliases: Vec<Alias>) -> Fsm
        requires { IsMachine (record { states = states.items; aliases = aliases.items }) }
        ensures { result ≡ record { states = states.items; aliases = aliases.items } }
    {
        Fsm { states, aliases }
    }

    /// The names of the categories, at most 1,280: of the states, of the aliases, and `fail`. The number of a name is
    /// the category's group in the compiled table.
    pub fn categories(&self, alloc: Global) -> Result<Names, NoMemory>
        ensures value { IfOk result (λ names. names ≡ category_names self.now) }
        ensures count { IfOk result (λ names. length names ≡ category_count self.now) }
        ensures bounded { IfOk result (λ names. length names ≤ 1280) }
    {
        let mut names = Names::new(alloc);
        for state in &self.states {
            names.add(state.name.as_str())?;
        }
        for alias in &self.aliases {
            names.add(alias.name.as_str())?;
        }
        names.add("fail")?;
        Ok(names)
    }

    /// Where a letter leads.
    pub(crate) fn after(&self, at: Destination, letter: Letter) -> Destination
        ensures { result ≡ next_destination self.now at letter.0 }
    {
        let Destination::State(number) = at else {
            return Destination::Fail;
        };
        match self.states.get(number as usize) {
            Some(state) => state.destination(letter),
            None => Destination::Fail,
        }
    }

    /// How many categories there are.
    pub(crate) fn category_count(&self) -> usize
        ensures value { result ≡ category_count self.now }
        ensures machine { IsMachine self.now }
    {
        self.states.len() + self.aliases.len() + 1
    }

    /// Whether a state is a member of a category.
    pub(crate) fn is_member(&self, category: usize, destination: Destination) -> bool
        requires { category < category_count self.now }
        ensures { IsTrue result ↔ IsMember self.now category destination }
    {
        if category < self.states.len() {
            return destination == Destination::State(category as u16);
        }
        let category = category - self.states.len();
        if category < self.aliases.len() {
            return self.aliases[category].contains(destination);
        }
        destination == Destination::Fail
    }
}
