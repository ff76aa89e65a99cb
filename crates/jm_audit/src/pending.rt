//! The steps that callers have still to do.
ghost use Rattle.std.specs.Prelude.{◌≡◌, ◌≤◌, ◌<◌, ◌++◌, [], ◌∷◌, ◌↔◌, Some, length, map, option_map, IfOk, OnOk, IsTrue};
ghost use mathlib.Core.List.{IsPrefix};
ghost use Rattle.jm_audit.specs.Allowed.{steps_on};
ghost use Rattle.jm_audit.specs.Pending.{pending_at, AreUnderway, IsChoice, mark};
ghost use Rattle.jm_script.specs.Catalogs.{most_scripts};

use crate::compare::is_at;
use itoa::Buffer;
use jm_model::{NoMemory, Step};
use jm_script::CompactScript;
use std::alloc::Global;

/// A step of a caller that is still to be done, with the number of its line.
#[derive(Clone, Copy)]
pub(crate) struct Pending {
    pub(crate) caller: u32,
    pub(crate) line: u32,
    pub(crate) step: Step,
}

/// The steps of the scripts that are for a specification.
pub(crate) fn pending_steps(
    alloc: Global,
    scripts: &[CompactScript],
    number: u8,
) -> Result<Vec<Pending>, NoMemory>
    requires { length scripts.now ≤ most_scripts }
    ensures { IfOk result (λ pending. AreUnderway (steps_on scripts.now number) [] pending.items) }
{
    let mut pending = Vec::new(alloc);
    for (caller, script) in scripts.iter().enumerate() {
        let steps = script.steps(alloc, number)?;
        add_steps(&mut pending, caller as u32, steps.as_slice())?;
    }
    Ok(pending)
}

/// Adds the steps of a caller at the end.
fn add_steps(pending: &mut Vec<Pending>, caller: u32, steps: &[(u32, Step)]) -> Result<(), NoMemory>
    ensures { OnOk result (pending.new.items ≡ pending.old.items ++ map (pending_at caller) steps.now) }
{
    for (line, step) in steps {
        pending.push(Pending {
            caller,
            line: *line,
            step: *step,
        })?;
    }
    Ok(())
}

/// The place of the step that comes next: the first of the caller that the rest of the text begins with, where it
/// begins with one that has a step left, and else the first of all.
pub(crate) fn choose(pending: &[Pending], rest: Option<&[u8]>) -> usize
    requires { 0 < length pending.now }
    ensures in_range { result < length pending.now }
    ensures choice { IsChoice pending.now (option_map (λ r. r.now) rest.entry) result }
{
    match rest {
        Some(rest) => choose_marked(pending, rest),
        None => 0,
    }
}

/// Chooses so among several where this is the rest of the text.
fn choose_marked(pending: &[Pending], rest: &[u8]) -> usize
    requires { 0 < length pending.now }
    ensures in_range { result < length pending.now }
    ensures choice { IsChoice pending.now (Some rest.now) result }
{
    for (place, next) in pending.iter().enumerate() {
        if is_marked(rest, next.caller) {
            return place;
        }
    }
    0
}

/// Whether a text begins as a line of an entry of the caller does.
fn is_marked(text: &[u8], caller: u32) -> bool
    ensures { IsTrue result ↔ IsPrefix (mark caller) text.now }
{
    let mut buffer = Buffer::new();
    has_mark(text, buffer.format(caller).as_bytes())
}

/// Whether a text begins with these digits and a colon.
fn has_mark(text: &[u8], digits: &[u8]) -> bool
    ensures { IsTrue result ↔ IsPrefix (digits.now ++ 58 ∷ []) text.now }
{
    if !text.starts_with(digits) {
        return false;
    }
    is_at(text, digits.len(), b':')
}
