//! The account of a history so far: what the reply to the next step is found by.
ghost use Rattle.std.specs.Prelude.{◌≡◌, ◌<◌, ◌++◌, [], ◌∷◌, ℕ, List, length, IfOk, OnOk};
ghost use Rattle.jm_model.specs.declared.step.Entry.{Entry};
ghost use Rattle.jm_semantics.specs.Legality.{IsStepOf};
ghost use Rattle.jm_audit.specs.Slices.{after_event, HaveLetters};
ghost use Rattle.jm_audit.specs.Accounts.{IsAccountOf, IsReplied, IsDeath, HasRoom};

use crate::dead::{first_dead, is_dead};
use crate::growth::{advance, new_instances};
use crate::instance::Instance;
use crate::report::{kept, report};
use jm_model::{Binding, Letter, Monitor, NoMemory, Outcome, Step};
use std::alloc::Global;

/// The bindings of the accepted events, which objects are dead, and the instances with their slices.
#[derive(Drop)]
pub(crate) struct Account {
    pub(crate) seen: Vec<Binding>,
    pub(crate) dead: Vec<bool>,
    pub(crate) instances: Vec<Instance>,
}

impl Account {
    /// The account of the history without entries, over the given number of objects.
    pub(crate) fn new<M: Monitor>(
        alloc: Global,
        rules: &M,
        objects: u32,
    ) -> Result<Account, NoMemory>
        ensures empty { IfOk result (λ account. IsAccountOf (M.meaning (M.definition rules.now)) [] account) }
        ensures room { IfOk result (λ account. length account.dead.items ≡ objects) }
    {
        let _letters = rules.letters();
        let dead = vec![in alloc; false; objects as usize]?;
        let mut instances = Vec::new(alloc);
        instances.push(Instance::empty(alloc))?;
        Ok(Account {
            seen: Vec::new(alloc),
            dead,
            instances,
        })
    }

    /// The reply to a step, which is done.
    pub(crate) fn reply<M: Monitor>(
        &mut self,
        alloc: Global,
        rules: &M,
        step: &Step,
    ) -> Result<Outcome, NoMemory>
        requires own { IsStepOf (M.meaning (M.definition rules.now)) step.now }
        requires room { HasRoom (length self.old.dead.items) step.now }
        requires letters { HaveLetters (M.meaning (M.definition rules.now)) self.old.instances.items }
        ensures room { OnOk result (length self.new.dead.items ≡ length self.old.dead.items) }
        ensures replied { IfOk result (λ outcome. (h : List Entry)
            → IsAccountOf (M.meaning (M.definition rules.now)) h self.old
            → IsReplied (M.meaning (M.definition rules.now)) h step.now outcome self.new) }
    {
        match step {
            Step::Event { letter, binding } => self.event(alloc, rules, *letter, binding),
            Step::Death { object } => Ok(self.death(*object)),
            Step::Pass => {
                let kept = kept(
                    alloc,
                    rules,
                    self.dead.as_slice(),
                    self.instances.as_slice(),
                )?;
                Ok(Outcome::Kept(kept.len() as u64))
            }
        }
    }

    /// The death of an object: it is refused where the object is dead.
    fn death(&mut self, object: u32) -> Outcome
        requires { object < length self.old.dead.items }
        ensures { IsDeath object self.old result self.new }
    {
        if is_dead(self.dead.as_slice(), object) {
            return Outcome::Refused(object);
        }
        self.dead[object as usize] = true;
        Outcome::Done
    }

    /// An event: it is refused where it binds a dead object.
    fn event<M: Monitor>(
        &mut self,
        alloc: Global,
        rules: &M,
        letter: Letter,
        binding: &Binding,
    ) -> Result<Outcome, NoMemory>
        requires own { IsStepOf (M.meaning (M.definition rules.now)) (Step.Event letter binding.now) }
        requires letters { HaveLetters (M.meaning (M.definition rules.now)) self.old.instances.items }
        ensures room { OnOk result (length self.new.dead.items ≡ length self.old.dead.items) }
        ensures replied { IfOk result (λ outcome. (h : List Entry)
            → IsAccountOf (M.meaning (M.definition rules.now)) h self.old
            → IsReplied (M.meaning (M.definition rules.now)) h (Step.Event letter binding.now) outcome self.new) }
    {
        if let Some(object) = first_dead(self.dead.as_slice(), binding) {
            return Ok(Outcome::Refused(object));
        }
        self.grow(alloc, letter, binding)?;
        let firings = report(alloc, rules, binding, self.instances.as_slice())?;
        Ok(Outcome::Fired(firings))
    }

    /// The instances and the seen bindings after an accepted event.
    fn grow(&mut self, alloc: Global, letter: Letter, binding: &Binding) -> Result<(), NoMemory>
        ensures seen { OnOk result (self.new.seen.items ≡ self.old.seen.items ++ binding.now ∷ []) }
        ensures dead { OnOk result (self.new.dead.items ≡ self.old.dead.items) }
        ensures instances { OnOk result (self.new.instances.items
            ≡ after_event letter.0 binding.now self.old.seen.items self.old.instances.items) }
    {
        let mut new = new_instances(
            alloc,
            self.seen.as_slice(),
            binding,
            self.instances.as_slice(),
        )?;
        self.instances.append(&mut new)?;
        advance(self.instances.as_mut_slice(), letter, binding)?;
        Ok(self.seen.push(*binding)?)
    }
}
