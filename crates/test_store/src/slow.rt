//! The plain program of the definitions: it keeps the whole trace and every instance, and disposes of nothing.
use jm_model::{Binding, Firing, Firings, Letter, Monitor, NoMemory, Outcome, Step};
use std::alloc::Global;

#[derive(Drop)]
struct Event {
    letter: Letter,
    binding: Binding,
}

/// The trace, the joins of its bindings in the order of bindings, and the dead objects.
#[derive(Drop)]
pub(crate) struct Slow {
    alloc: Global,
    trace: Vec<Event>,
    instances: Vec<Binding>,
    dead: Vec<u32>,
}

impl Slow {
    pub(crate) fn new(alloc: Global) -> Result<Slow, NoMemory> {
        let mut instances = Vec::new(alloc);
        instances.push(Binding::empty())?;
        Ok(Slow {
            alloc,
            trace: Vec::new(alloc),
            instances,
            dead: Vec::new(alloc),
        })
    }

    pub(crate) fn step<M: Monitor>(&mut self, rules: &M, step: &Step) -> Result<Outcome, NoMemory> {
        match step {
            Step::Event { letter, binding } => {
                self.trace.push(Event {
                    letter: *letter,
                    binding: *binding,
                })?;
                self.grow(binding)?;
                Ok(Outcome::Fired(self.answer(rules, binding)?))
            }
            Step::Death { object } => {
                self.dead.push(*object)?;
                Ok(Outcome::Done)
            }
            Step::Pass => Ok(Outcome::Kept(self.stored(rules)?.len() as u64)),
        }
    }

    /// Adds the joins of a binding and the instances.
    fn grow(&mut self, binding: &Binding) -> Result<(), NoMemory> {
        let before = self.instances.clone()?;
        for instance in &before {
            if instance.compatible(binding) {
                let join = instance.join(binding);
                if !self.instances.contains(&join) {
                    self.instances.push(join)?;
                }
            }
        }
        self.instances.sort_unstable_by(|a, b| a.cmp(b));
        Ok(())
    }

    /// For each instance above the binding that binds what it has to the handlers that its slice hits.
    fn answer<M: Monitor>(&self, rules: &M, binding: &Binding) -> Result<Firings, NoMemory> {
        let must_bind = rules.must_bind();
        let mut firings = Firings::new(self.alloc);
        for instance in &self.instances {
            if binding.le(instance) && instance.mask() & must_bind == must_bind {
                let hits = rules.hits(&self.state(rules, instance)?);
                for handler in 0..16 {
                    if (hits >> handler) % 2 == 1 {
                        firings.push(Firing {
                            instance: *instance,
                            handler,
                        })?;
                    }
                }
            }
        }
        Ok(firings)
    }

    /// The state after the slice of an instance.
    fn state<M: Monitor>(&self, rules: &M, instance: &Binding) -> Result<M::State, NoMemory> {
        let letters = rules.letters();
        let mut state = rules.begin()?;
        for event in &self.trace {
            if event.binding.le(instance) && event.letter.0 < letters {
                state = rules.next(&state, event.letter)?;
            }
        }
        Ok(state)
    }

    /// The instances that aren't cut.
    pub(crate) fn stored<M: Monitor>(&self, rules: &M) -> Result<Vec<Binding>, NoMemory> {
        let mut stored = Vec::new(self.alloc);
        for instance in &self.instances {
            let state = self.state(rules, instance)?;
            if !rules.cut(&state, self.dead_mask(instance)) {
                stored.push(*instance)?;
            }
        }
        Ok(stored)
    }

    /// The bindings of the trace that bind a live object, in the order of bindings.
    pub(crate) fn marks(&self) -> Result<Vec<Binding>, NoMemory> {
        let mut marks = Vec::new(self.alloc);
        for event in &self.trace {
            let binding = event.binding;
            if self.dead_mask(&binding) != binding.mask() && !marks.contains(&binding) {
                marks.push(binding)?;
            }
        }
        marks.sort_unstable_by(|a, b| a.cmp(b));
        Ok(marks)
    }

    /// The parameters that an instance binds to dead objects.
    fn dead_mask(&self, instance: &Binding) -> u8 {
        let mut mask = 0u8;
        for p in 0..8 {
            if let Some(object) = instance.get(p)
                && self.dead.contains(&object)
            {
                mask |= 1 << p;
            }
        }
        mask
    }
}
