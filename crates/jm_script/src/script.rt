//! A script that was read, and its projections.
ghost use Rattle.std.specs.Prelude.{◌≡◌, ℕ, List, All, IfOk, Some, None, if◌then◌else◌};
ghost use Rattle.jm_semantics.specs.Scripts.{projection_of, is_for};
ghost use Rattle.jm_script.specs.Projections.{script_of, spec_of, step_of};
ghost use Rattle.jm_script.specs.Catalogs.{CatalogEntry};
ghost use Rattle.jm_script.specs.Fitting.{FitsCatalog, FitsSpecification};
ghost use Rattle.jm_script.specs.Meanings.{RisesFrom};

use crate::compact::CompactScript;
use jm_model::{Binding, Letter, NoMemory, Step};
use std::alloc::Global;
use std::marker::Model;

/// What a line does: an event of a specification or a disposal pass on one, or the death of an object, which is for all
/// specifications.
#[derive(Clone, Copy)]
pub enum Target {
    Event {
        spec: u8,
        letter: Letter,
        binding: Binding,
    },
    Death {
        object: u32,
    },
    Pass {
        spec: u8,
    },
}

impl Target {
    /// The step that this is for a specification, if it is one.
    pub fn step_for(&self, spec: u8) -> Option<Step>
        ensures { result ≡ (if is_for spec (spec_of self.now) then Some (step_of self.now) else None) }
    {
        match *self {
            Target::Event {
                spec: on,
                letter,
                binding,
            } if on == spec => Some(Step::Event { letter, binding }),
            Target::Death { object } => Some(Step::Death { object }),
            Target::Pass { spec: on } if on == spec => Some(Step::Pass),
            _ => None,
        }
    }
}

/// A step line: its number, counted from 1, and what it does.
#[derive(Clone, Copy)]
pub struct ScriptLine {
    pub line: u32,
    pub target: Target,
}

/// The step lines of a script, in order. Their numbers rise. Contracts see a script as their list.
#[derive(Drop)]
pub struct Script {
    lines: Vec<ScriptLine>,
}

impl Model for Script {
    ghost use Rattle.std.specs.Prelude.{List};
    ghost use Rattle.jm_script.specs.declared.script.ScriptLine.{ScriptLine};
    ghost use Rattle.jm_script.specs.Meanings.{RisesFrom};

    ghost Value = { List ScriptLine };

    ghost view = { λ s. s.lines.items };

    ghost invariant = { λ s. RisesFrom 1 s.lines.items };
}

impl Script {
    pub(crate) fn of(lines: Vec<ScriptLine>) -> Script
        requires { RisesFrom 1 lines.items }
        ensures { result ≡ lines.items }
    {
        Script { lines }
    }

    /// The lines of a script, each as a value of its own.
    pub(crate) fn whole(alloc: Global, compact: &CompactScript) -> Result<Script, NoMemory>
        ensures { IfOk result (λ script. script ≡ compact.now) }
    {
        let mut lines = Vec::with_capacity(alloc, compact.len())?;
        for place in 0..compact.len() {
            let ScriptLine { line, target } = compact.line(place);
            lines.push(ScriptLine { line, target })?;
        }
        Ok(Script::of(lines))
    }

    /// The step lines. Their numbers rise.
    pub fn lines(&self) -> &[ScriptLine]
        ensures value { result.now ≡ self.now }
        ensures rising { RisesFrom 1 result.now }
    {
        self.lines.as_slice()
    }
}

/// The steps of a script that are for a specification, with the numbers of their lines: its events and passes, and all
/// deaths.
pub fn project(alloc: Global, script: &Script, spec: u8) -> Result<Vec<(u32, Step)>, NoMemory>
    ensures value { IfOk result (λ steps. steps.items ≡ projection_of (script_of script.now) spec) }
    ensures fitting { (catalog : List CatalogEntry) (names : ℕ) → FitsCatalog catalog names script.now
        → IfOk result (λ steps. All (λ s. FitsSpecification catalog names spec s.1) steps.items) }
{
    project_lines(alloc, script.lines(), spec)
}

/// The steps of these lines that are for a specification.
fn project_lines(
    alloc: Global,
    lines: &[ScriptLine],
    spec: u8,
) -> Result<Vec<(u32, Step)>, NoMemory>
    ensures { IfOk result (λ steps. steps.items ≡ projection_of (script_of lines.now) spec) }
{
    let mut steps = Vec::with_capacity(alloc, lines.len())?;
    for line in lines {
        let Some(step) = line.target.step_for(spec) else {
            continue;
        };
        steps.push((line.line, step))?;
    }
    Ok(steps)
}
