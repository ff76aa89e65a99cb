//! The machine that a formula says.
ghost use Rattle.std.specs.Prelude.{◌≡◌, ◌≤◌, [], length, true, IfErr, IfOk, None};
ghost use Rattle.std.specs.List.{list_any};
ghost use Rattle.jm_events.specs.Events.{event_names};
ghost use Rattle.jm_fsm.specs.Spelling.{is_state};
ghost use Rattle.jm_fsm.specs.Faults.{state_names, destination_said, state_said, alias_said, machine_of, aliases_fault, part_name_fault, duplicate_state_fault, states_fault, first_fault};
ghost use Rattle.jm_fsm.specs.Categories.{AreDistinct};
ghost use Rattle.jm_reading.specs.Faults.{Checks, Answers};

use crate::check::{self, Words};
use crate::formula::{Part, TransitionText};
use crate::machine::{Alias, Destination, Fsm, State, Transition};
use jm_events::{EventTable, Names};
use jm_model::{SpecError, SpecFault};
use jm_reading::{add_name, check_event_names, letter_of, name_of};
use jm_text::Token;
use std::alloc::Global;

/// What the names of a formula stand for: events, or states.
#[derive(Clone, Copy)]
struct Resolver<'a> {
    bytes: &'a [u8],
    table: &'a EventTable,
    states: &'a Names,
    ghost few: { length states.now ≤ 1023 },
}

impl<'a> Resolver<'a> {
    /// Where a name leads: to a state or to `fail`.
    fn destination(&self, token: Token) -> Result<Destination, SpecError>
        ensures { Answers result (destination_said self.now.bytes.now self.now.states.now token) }
    {
        let name = name_of(self.bytes, token);
        if name == "fail" {
            return Ok(Destination::Fail);
        }
        match self.states.find(name) {
            Some(number) => Ok(Destination::State(number as u16)),
            None => {
                let line = token.line;
                Err(SpecFault::UnknownName { line }.into())
            }
        }
    }

    /// The state of a declaration.
    fn state(
        &self,
        alloc: Global,
        name: Token,
        transitions: &[TransitionText],
    ) -> Result<State, SpecError>
        ensures { Answers result (state_said
            self.now.bytes.now (event_names self.now.table.now) self.now.states.now name transitions.now) }
    {
        let mut state = State {
            name: String::from_str(alloc, name_of(self.bytes, name))?,
            transitions: Vec::new(alloc),
            fallback: None,
        };
        for transition in transitions {
            match *transition {
                TransitionText::On { event, destination } => {
                    let letter = letter_of(self.bytes, self.table, event)?;
                    let destination = self.destination(destination)?;
                    state.transitions.push(Transition {
                        letter,
                        destination,
                    })?;
                }
                TransitionText::Fallback { destination, .. } => {
                    state.fallback = Some(self.destination(destination)?);
                }
            }
        }
        Ok(state)
    }

    /// The alias of a name and its members.
    fn alias(&self, alloc: Global, name: Token, members: &[Token]) -> Result<Alias, SpecError>
        ensures { Answers result (alias_said self.now.bytes.now self.now.states.now name members.now) }
    {
        let mut alias = Alias {
            name: String::from_str(alloc, name_of(self.bytes, name))?,
            members: Vec::new(alloc),
        };
        for member in members {
            let destination = self.destination(*member)?;
            alias.members.push(destination)?;
        }
        Ok(alias)
    }
}

/// The names of the states, in order.
fn state_names(alloc: Global, bytes: &[u8], parts: &[Part]) -> Result<Names, SpecError>
    requires { AreDistinct (state_names bytes.now parts.now) }
    ensures ok { IfOk result (λ names. names ≡ state_names bytes.now parts.now) }
    ensures err { IfErr result (λ e. e ≡ SpecError.NoMemory) }
{
    let mut names = Names::new(alloc);
    for part in parts {
        match part {
            Part::Declaration { name, .. } => add_name(&mut names, name_of(bytes, *name))?,
            Part::Alias { .. } => {}
        }
    }
    Ok(names)
}

/// The machine of a formula, or its first name that isn't there.
#[tactic(auto, unfolding(crate::specs::Faults::machine_of))]
fn known_machine(
    alloc: Global,
    bytes: &[u8],
    parts: &[Part],
    table: &EventTable,
) -> Result<Fsm, SpecError>
    requires some { list_any is_state parts.now ≡ true }
    requires aliases { aliases_fault parts.now ≡ None }
    requires names { part_name_fault bytes.now parts.now ≡ None }
    requires distinct { duplicate_state_fault bytes.now [] parts.now ≡ None }
    requires states { states_fault parts.now ≡ None }
    ensures { Answers result (machine_of bytes.now table.now parts.now) }
{
    let names = state_names(alloc, bytes, parts)?;
    let resolver = Resolver {
        bytes,
        table,
        states: &names,
    };
    let mut states = Vec::new(alloc);
    let mut aliases = Vec::new(alloc);
    for part in parts {
        match part {
            Part::Declaration { name, transitions } => {
                states.push(resolver.state(alloc, *name, transitions.as_slice())?)?;
            }
            Part::Alias { name, members } => {
                aliases.push(resolver.alias(alloc, *name, members.as_slice())?)?;
            }
        }
    }
    Ok(Fsm::new(states, aliases))
}

/// The machine of a formula, or the fault of the first step that has one.
#[tactic(auto, unfolding(crate::specs::Faults::first_fault))]
pub fn machine_of(
    alloc: Global,
    bytes: &[u8],
    parts: &[Part],
    table: &EventTable,
) -> Result<Fsm, SpecError>
    requires { list_any is_state parts.now ≡ true }
    ensures ok { IfOk result (λ m. machine_of bytes.now table.now parts.now ≡ Ok m) }
    ensures checked { Checks result (first_fault bytes.now table.now parts.now) }
{
    check::check_aliases(parts)?;
    check_event_names::<Words>(table)?;
    check::check_part_names(bytes, parts)?;
    check::check_duplicate_states(alloc, bytes, parts)?;
    check::check_duplicate_transitions(alloc, bytes, parts)?;
    check::check_states(parts)?;
    known_machine(alloc, bytes, parts, table)
}
