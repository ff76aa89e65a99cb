//! A core over a table of states.
ghost use Rattle.std.specs.Prelude.{◌≡◌, ◌<◌, IfSome, IfOk, All, length};
ghost use Rattle.jm_core.specs.Steps.{IsEventOf};
ghost use Rattle.testkit_monitor.specs.Tables.{table_meaning};

use jm_core::Prop;
use jm_history::Node;
use jm_model::{Binding, Letter, NoMemory, Outcome, Step};
use std::alloc::Global;
use testkit::{byte_of, number_of, numbers_of};
use testkit_monitor::Table;

/// A core over a table, and the masks of the table's letters.
#[derive(Drop)]
pub(crate) struct Rig {
    alloc: Global,
    params: [u8; 3],
    pub(crate) prop: Prop<Table>,
    ghost same: { prop.definition.params ≡ params },
    ghost objects: { prop.objects ≡ 8 },
}

impl Rig {
    pub(crate) fn new(alloc: Global, table: Table) -> Result<Rig, NoMemory> {
        let params = table.params();
        let prop = Prop::new(alloc, table, 8)?;
        Ok(Rig {
            alloc,
            params,
            prop,
        })
    }

    /// The event of a letter and the objects of its parameters.
    fn step(&self, letter: u8, objects: &[u32]) -> Option<Step>
        ensures { IfSome result (λ step. IsEventOf (table_meaning self.now.prop.definition) 8 step) }
    {
        let at = usize::from(letter);
        if at >= 3 {
            return None;
        }
        let mask = self.params[at];
        if mask.count_ones() as usize != objects.len() {
            return None;
        }
        for object in objects {
            if *object >= 8 {
                return None;
            }
        }
        Some(Step::Event {
            letter: Letter(letter),
            binding: Binding::of(mask, objects),
        })
    }

    /// The event of a line `LETTER OBJECT ..`.
    fn step_of(&self, line: &str) -> Result<Option<Step>, NoMemory>
        ensures { IfOk result (λ step. IfSome step
            (λ step. IsEventOf (table_meaning self.now.prop.definition) 8 step)) }
    {
        let (letter, objects) = line.split_once(' ').unwrap_or((line, ""));
        let objects = numbers_of(self.alloc, objects)?;
        Ok(self.step(byte_of(letter), &objects))
    }

    /// Does the event of a line, and gives its answer. A line that is no event is answered `Done`.
    pub(crate) fn fire(&mut self, line: &str) -> Result<Outcome, NoMemory> {
        let Some(step) = self.step_of(line)? else {
            return Ok(Outcome::Done);
        };
        let node = Node::new(self.alloc, 0, 1, step)?;
        Ok(self.prop.event(node))
    }

    /// The events of lines `NUMBER LETTER OBJECT ..`, each with its number.
    fn steps(&self, text: &str) -> Result<Vec<(u32, Step)>, NoMemory>
        ensures { IfOk result (λ steps. All
            (λ s. IsEventOf (table_meaning self.now.prop.definition) 8 s.1) steps.items) }
    {
        let mut steps = Vec::new(self.alloc);
        for line in text.lines() {
            let (place, event) = line.split_once(' ').unwrap_or((line, ""));
            if let Some(step) = self.step_of(event)? {
                steps.push((number_of(place), step))?;
            }
        }
        Ok(steps)
    }

    /// Does a caller's events.
    pub(crate) fn replay(&mut self, caller: u32, text: &str) -> Result<(), NoMemory> {
        let steps = self.steps(text)?;
        self.prop.replay(caller, &steps)
    }
}
