//! What is wrong with a formula, step by step.
ghost use Rattle.std.specs.Prelude.{[], false};
ghost use Rattle.jm_fsm.specs.Spelling.{is_state};
ghost use Rattle.jm_fsm.specs.Faults.{is_alias, name_token, aliases_fault, is_grammar_word, is_reserved, part_name_fault, duplicate_state_fault, duplicate_transition_fault, transitions_fault, states_fault};
ghost use Rattle.jm_reading.specs.Faults.{Checks};

use crate::formula::{Part, TransitionText};
use jm_events::Names;
use jm_model::{Counted, SpecError, SpecFault};
use jm_reading::{GrammarWords, add_name, name_of};
use std::alloc::Global;

const MAX_ALIASES: usize = 256;

/// With `fail` there are 1,024 states.
const MAX_STATES: usize = 1023;

/// There are at most 256 aliases.
pub fn check_aliases(parts: &[Part]) -> Result<(), SpecError>
    ensures { Checks result (aliases_fault parts.now) }
{
    if parts.iter().filter(|part| part.is_alias()).count() > MAX_ALIASES {
        let what = Counted::Aliases;
        return Err(SpecFault::TooMany { what }.into());
    }
    Ok(())
}

/// With `fail` there are at most 1,024 states.
pub fn check_states(parts: &[Part]) -> Result<(), SpecError>
    ensures { Checks result (states_fault parts.now) }
{
    if parts.iter().filter(|part| part.is_state()).count() > MAX_STATES {
        return Err(SpecFault::TooManyStates.into());
    }
    Ok(())
}

/// The words that stand for something else than a name.
pub struct Words;

impl GrammarWords for Words {
    ghost reserved = { is_grammar_word };

    fn is_reserved(name: &str) -> bool {
        name == "alias" || name == "default"
    }
}

/// No state or alias is named by a word of the grammar, or `fail`.
pub fn check_part_names(bytes: &[u8], parts: &[Part]) -> Result<(), SpecError>
    ensures { Checks result (part_name_fault bytes.now parts.now) }
{
    for part in parts {
        let token = part.name_token();
        let name = name_of(bytes, token);
        if name == "fail" || Words::is_reserved(name) {
            let line = token.line;
            return Err(SpecFault::ReservedName { line }.into());
        }
    }
    Ok(())
}

/// No state or alias has the name of an earlier one.
pub fn check_duplicate_states(alloc: Global, bytes: &[u8], parts: &[Part]) -> Result<(), SpecError>
    ensures { Checks result (duplicate_state_fault bytes.now [] parts.now) }
{
    let mut names = Names::new(alloc);
    for part in parts {
        let token = part.name_token();
        let name = name_of(bytes, token);
        if names.find(name).is_some() {
            let line = token.line;
            return Err(SpecFault::DuplicateState { line }.into());
        }
        add_name(&mut names, name)?;
    }
    Ok(())
}

/// In a state no transition is on the event of an earlier one, and at most one is a `default`.
fn check_transitions(
    alloc: Global,
    bytes: &[u8],
    transitions: &[TransitionText],
) -> Result<(), SpecError>
    ensures { Checks result (duplicate_transition_fault bytes.now [] false transitions.now) }
{
    let mut events = Names::new(alloc);
    let mut fallen = false;
    for transition in transitions {
        match *transition {
            TransitionText::On { event, .. } => {
                let name = name_of(bytes, event);
                if events.find(name).is_some() {
                    let line = event.line;
                    return Err(SpecFault::DuplicateTransition { line }.into());
                }
                add_name(&mut events, name)?;
            }
            TransitionText::Fallback { word, .. } => {
                if fallen {
                    let line = word.line;
                    return Err(SpecFault::DuplicateTransition { line }.into());
                }
                fallen = true;
            }
        }
    }
    Ok(())
}

/// In no state is a transition on the event of an earlier one, or a second `default`.
pub fn check_duplicate_transitions(
    alloc: Global,
    bytes: &[u8],
    parts: &[Part],
) -> Result<(), SpecError>
    ensures { Checks result (transitions_fault bytes.now parts.now) }
{
    for part in parts {
        if let Part::Declaration { transitions, .. } = part {
            check_transitions(alloc, bytes, transitions.as_slice())?;
        }
    }
    Ok(())
}
