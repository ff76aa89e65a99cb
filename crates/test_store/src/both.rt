//! A store and the slow one beside it.
use crate::rig::Rig;
use crate::slow::Slow;
use jm_model::{Binding, Monitor, NoMemory, Outcome, Step};
use std::alloc::{AllocError, Global};
use testkit::put;
use testkit_steps::{binding_shown, outcome_shown};

/// Both stores, how many of their answers agree, and a line for each that differs. Beside these it is counted how many
/// handlers fired and how many instances were kept in the slow store.
#[derive(Drop)]
pub(crate) struct Both<'a, M: Monitor> {
    alloc: Global,
    rig: Rig<'a, M>,
    slow: Slow,
    agree: u64,
    fired: u64,
    kept: u64,
    /// The lines, each after a line feed.
    pub(crate) differ: String,
}

impl<'a, M: Monitor> Both<'a, M> {
    pub(crate) fn new(alloc: Global, rules: &'a M, objects: u32) -> Result<Both<'a, M>, NoMemory> {
        Ok(Both {
            alloc,
            rig: Rig::new(alloc, rules, objects)?,
            slow: Slow::new(alloc)?,
            agree: 0,
            fired: 0,
            kept: 0,
            differ: String::new(alloc),
        })
    }

    /// Begins anew, and counts on.
    pub(crate) fn begin(&mut self, objects: u32) -> Result<(), NoMemory> {
        self.rig = Rig::new(self.alloc, self.rig.rules, objects)?;
        self.slow = Slow::new(self.alloc)?;
        Ok(())
    }

    /// The text of the store's outcome of a step, or `none` where it isn't done.
    pub(crate) fn step(&mut self, step: &Step) -> Result<String, NoMemory> {
        let Some(found) = self.rig.step(step)? else {
            return Ok(String::from_str(self.alloc, "none")?);
        };
        let wanted = self.slow.step(self.rig.rules, step)?;
        self.count(&wanted);
        let wanted = outcome_shown(self.alloc, &wanted)?;
        self.see(outcome_shown(self.alloc, &found)?, wanted.as_str())
    }

    /// Counts what the slow store fired or kept.
    fn count(&mut self, outcome: &Outcome) {
        match outcome {
            Outcome::Fired(firings) => {
                self.fired = self.fired.wrapping_add(firings.len() as u64);
            }
            Outcome::Kept(kept) => self.kept = self.kept.wrapping_add(*kept),
            _ => {}
        }
    }

    /// The texts of the stored bindings and of the marks. Directly after a pass the slow store has the same.
    pub(crate) fn lists(&mut self) -> Result<String, NoMemory> {
        let found = self.found_lists()?;
        let wanted = self.wanted_lists()?;
        self.see(found, wanted.as_str())
    }

    fn found_lists(&self) -> Result<String, NoMemory> {
        let stored = self.rig.stored()?;
        let marks = self.rig.marks()?;
        Ok(lists_shown(self.alloc, &stored, &marks)?)
    }

    fn wanted_lists(&self) -> Result<String, NoMemory> {
        let stored = self.slow.stored(self.rig.rules)?;
        let marks = self.slow.marks()?;
        Ok(lists_shown(self.alloc, &stored, &marks)?)
    }

    fn see(&mut self, found: String, wanted: &str) -> Result<String, NoMemory> {
        if found.as_str() == wanted {
            self.agree = self.agree.wrapping_add(1);
        } else {
            let line = format!(in self.alloc; "\n{found} and slowly {wanted}")?;
            self.differ.push_str(line.as_str())?;
        }
        Ok(found)
    }

    /// What was counted, and the lines.
    pub(crate) fn told(&self) -> Result<String, NoMemory> {
        Ok(format!(in self.alloc;
            "{} answers agree, {} fired, {} kept{}",
            self.agree, self.fired, self.kept, self.differ
        )?)
    }
}

/// The bindings of both lists, with a space between two and a `|` between the lists.
fn lists_shown(alloc: Global, stored: &[Binding], marks: &[Binding]) -> Result<String, AllocError> {
    let mut out = String::new(alloc);
    put_bindings(alloc, &mut out, stored)?;
    put(&mut out, ' ', "|")?;
    put_bindings(alloc, &mut out, marks)?;
    Ok(out)
}

/// Puts each of the bindings after a text, with a space before it where it isn't the first word.
fn put_bindings(alloc: Global, out: &mut String, bindings: &[Binding]) -> Result<(), AllocError> {
    for binding in bindings {
        let shown = binding_shown(alloc, binding)?;
        put(out, ' ', shown.as_str())?;
    }
    Ok(())
}
