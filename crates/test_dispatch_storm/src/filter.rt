//! What the definitions say of a history over doors and keys: the entries before an entry are kept as a list, and
//! filtered.
use jm_model::{Binding, Entry, Firing, Firings, NoMemory, Outcome, Step};
use std::alloc::Global;
use testkit_steps::outcome_shown;

/// The letters. A pass of a key is hit where, of the events of both before it that aren't passes, the last is an
/// unlocking.
const UNLOCK: u8 = 0;

const PASS: u8 = 2;

/// How many entries don't have the outcome that the definitions give their step after the entries before them. An event
/// that may be answered may also be out of memory, and then leaves no trace.
pub(crate) fn wrong(alloc: Global, entries: &[Entry]) -> Result<usize, NoMemory> {
    let mut past = Past::new(alloc);
    let mut wrong = 0usize;
    for entry in entries {
        if !past.met_want(entry) && !past.agrees(entry)? {
            wrong = wrong.wrapping_add(1);
        }
    }
    Ok(wrong)
}

/// What entries come to: the events that left a trace, in order, the bindings among them, and the dead objects.
#[derive(Drop)]
struct Past {
    alloc: Global,
    events: Vec<(u8, Binding)>,
    seen: Vec<Binding>,
    dead: Vec<u32>,
}

impl Past {
    fn new(alloc: Global) -> Past {
        Past {
            alloc,
            events: Vec::new(alloc),
            seen: Vec::new(alloc),
            dead: Vec::new(alloc),
        }
    }

    /// Whether the entry is an event on objects that live, and was out of memory.
    fn met_want(&self, entry: &Entry) -> bool {
        match (&entry.step, &entry.outcome) {
            (Step::Event { binding, .. }, Outcome::NoMemory) => self.first_dead(binding).is_none(),
            _ => false,
        }
    }

    /// Whether the entry has the reply to its step, which then is one of the past.
    fn agrees(&mut self, entry: &Entry) -> Result<bool, NoMemory> {
        let wanted = self.reply(&entry.step)?;
        let wanted = outcome_shown(self.alloc, &wanted)?;
        let found = outcome_shown(self.alloc, &entry.outcome)?;
        Ok(found.as_str() == wanted.as_str())
    }

    /// The reply to a step.
    fn reply(&mut self, step: &Step) -> Result<Outcome, NoMemory> {
        match step {
            Step::Event { letter, binding } => self.event(letter.0, binding),
            Step::Death { object } => self.death(*object),
            Step::Pass => self.kept(),
        }
    }

    fn event(&mut self, letter: u8, binding: &Binding) -> Result<Outcome, NoMemory> {
        if let Some(object) = self.first_dead(binding) {
            return Ok(Outcome::Refused(object));
        }
        self.events.push((letter, *binding))?;
        if !self.seen.contains(binding) {
            self.seen.push(*binding)?;
        }
        Ok(Outcome::Fired(self.firings(binding)?))
    }

    fn death(&mut self, object: u32) -> Result<Outcome, NoMemory> {
        if self.dead.contains(&object) {
            return Ok(Outcome::Refused(object));
        }
        self.dead.push(object)?;
        Ok(Outcome::Done)
    }

    /// How many instances aren't cut. One is cut where no letter is left to it, and that is where both its door and its
    /// key are dead: an unlocking binds both, a locking the door, a pass the key.
    fn kept(&self) -> Result<Outcome, NoMemory> {
        let mut count = 0u64;
        for instance in &self.instances()? {
            let door = self.dead_object(instance, 0);
            let key = self.dead_object(instance, 1);
            if door.is_none() || key.is_none() {
                count = count.wrapping_add(1);
            }
        }
        Ok(Outcome::Kept(count))
    }

    /// The first dead object of a binding, in the order of the parameters.
    fn first_dead(&self, binding: &Binding) -> Option<u32> {
        for p in 0..8 {
            if let Some(object) = self.dead_object(binding, p) {
                return Some(object);
            }
        }
        None
    }

    /// The object that a binding gives to a parameter, where it is dead.
    fn dead_object(&self, binding: &Binding, p: u8) -> Option<u32> {
        let object = if p < 8 { binding.get(p)? } else { return None };
        if self.dead.contains(&object) {
            Some(object)
        } else {
            None
        }
    }

    /// The pairs of an instance above the binding and the one handler, where the instance's slice hits it.
    fn firings(&self, binding: &Binding) -> Result<Firings, NoMemory> {
        let mut firings = Firings::new(self.alloc);
        for instance in &self.instances()? {
            if binding.le(instance) && self.is_hit(instance) {
                firings.push(Firing {
                    instance: *instance,
                    handler: 0,
                })?;
            }
        }
        Ok(firings)
    }

    /// Whether the slice of an instance hits the handler.
    fn is_hit(&self, instance: &Binding) -> bool {
        let mut passes = false;
        for (letter, binding) in self.events.iter().rev() {
            if !binding.le(instance) {
                continue;
            }
            if *letter != PASS {
                return passes && *letter == UNLOCK;
            }
            passes = true;
        }
        false
    }

    /// All joins of bindings seen, in order.
    fn instances(&self) -> Result<Vec<Binding>, NoMemory> {
        let mut found = Vec::new(self.alloc);
        found.push(Binding::empty())?;
        for binding in &self.seen {
            add_joins(&mut found, binding)?;
        }
        found.sort_unstable_by(|a, b| a.cmp(b));
        Ok(found)
    }
}

/// Adds the joins of a binding with those found.
fn add_joins(found: &mut Vec<Binding>, binding: &Binding) -> Result<(), NoMemory> {
    for i in 0..found.len() {
        if let Some(instance) = found.get(i).copied() {
            if instance.compatible(binding) {
                let join = instance.join(binding);
                if !found.contains(&join) {
                    found.push(join)?;
                }
            }
        }
    }
    Ok(())
}
