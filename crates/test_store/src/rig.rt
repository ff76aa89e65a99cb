//! A store of some rules, and a table of objects; it fits both.
ghost use Rattle.std.specs.Prelude.{◌≡◌, ◌<◌, ℕ, true, false, Some, length};
ghost use Rattle.jm_model.specs.Bindings.{object_at};
ghost use Rattle.jm_index.specs.Index.{AreBelow};
ghost use Rattle.jm_marks.specs.Marks.{is_dead_object};
ghost use Rattle.jm_monitors.specs.Steps.{IsLiveEvent};

use jm_model::{Binding, Firings, Letter, Monitor, NoMemory, Outcome, Step, Steps};
use jm_objects::Objects;
use jm_store::Store;
use std::alloc::Global;
use std::marker::{Brand, Model};
use std::sync::ledger::{Blank, Ledger};

/// A store of some rules, and a table of objects. Contracts see what the rules say, and both.
#[derive(Drop)]
pub(crate) struct Rig<'a, M: Monitor> {
    pub(crate) rules: &'a M,
    objects: Objects,
    store: Store<M>,
}

impl<'a, M: Monitor> Model for Rig<'a, M> {
    ghost use Rattle.std.specs.Prelude.{List, Bool};
    ghost use Rattle.jm_store.specs.Contents.{Contents};
    ghost use Rattle.test_store.specs.Rigs.{FitsRules};

    ghost Value = { M.Definition × List Bool × Contents M.State };

    ghost view = { λ r. (M.definition r.rules.now, r.objects, r.store) };

    ghost invariant = { λ r. FitsRules (M.meaning (M.definition r.rules.now)) (M.StandsFor r.rules.now) r.store
        r.objects };
}

impl<'a, M: Monitor> Rig<'a, M> {
    pub(crate) fn new(alloc: Global, rules: &'a M, objects: u32) -> Result<Rig<'a, M>, NoMemory> {
        let objects = Objects::new(alloc, objects)?;
        let store = Store::new(alloc, rules)?;
        Ok(Rig {
            rules,
            objects,
            store,
        })
    }

    /// Does a step. Nothing is done at an event that the rules don't have, or that binds an object which is dead or
    /// isn't there.
    pub(crate) fn step(&mut self, step: &Step) -> Result<Option<Outcome>, NoMemory> {
        match step {
            Step::Event { letter, binding } => self.event(*letter, binding),
            Step::Death { object } => {
                self.kill(*object);
                Ok(Some(Outcome::Done))
            }
            Step::Pass => Ok(Some(Outcome::Kept(self.pass()))),
        }
    }

    fn kill(&mut self, object: u32) {
        if object < self.objects.len() {
            self.objects.kill(object);
        }
    }

    fn pass(&mut self) -> u64 {
        self.store.dispose(self.rules, &self.objects)
    }

    fn event(&mut self, letter: Letter, binding: &Binding) -> Result<Option<Outcome>, NoMemory> {
        if letter.0 >= self.rules.letters()
            || self.rules.params(letter) != binding.mask()
            || !all_live(&self.objects, binding)
        {
            return Ok(None);
        }
        let firings = self.fire::<Brand>(letter, binding, Blank::new(1))?;
        Ok(Some(Outcome::Fired(firings)))
    }

    fn fire<L: Ledger>(
        &mut self,
        letter: Letter,
        binding: &Binding,
        blank: Blank,
    ) -> Result<Firings, NoMemory>
        requires name { blank.name ≡ L.name }
        requires parts { blank.parts ≡ L.parts }
        requires one { blank.parts ≡ 1 }
        requires event { IsLiveEvent (M.meaning self.old.0) self.old.1 letter.0 binding.now }
        requires in_range { AreBelow (length self.old.1) binding.now }
    {
        let mut steps = Steps::<L>::new(blank);
        let plan = self
            .store
            .plan(self.rules, &self.objects, letter, binding, &mut steps)?;
        let (answer, _) = self.store.commit(plan);
        Ok(answer)
    }

    pub(crate) fn stored(&self) -> Result<Vec<Binding>, NoMemory> {
        self.store.stored()
    }

    pub(crate) fn marks(&self) -> Result<Vec<Binding>, NoMemory> {
        self.store.marks()
    }
}

/// Whether all objects of a binding stand in the table and are alive.
fn all_live(objects: &Objects, binding: &Binding) -> bool
    ensures { result ≡ true → (p o : ℕ) → object_at binding.now p ≡ Some o
        → (o < length objects.now) × (is_dead_object objects.now o ≡ false) }
{
    let _mask = binding.mask();
    for p in 0..8 {
        if !is_live_at(objects, binding, p) {
            return false;
        }
    }
    true
}

/// Whether a parameter isn't bound, or to a live object of the table.
fn is_live_at(objects: &Objects, binding: &Binding, p: u8) -> bool
    requires { p < 8 }
    ensures { result ≡ true → (o : ℕ) → object_at binding.now p ≡ Some o
        → (o < length objects.now) × (is_dead_object objects.now o ≡ false) }
{
    match binding.get(p) {
        None => true,
        Some(object) => is_live(objects, object),
    }
}

fn is_live(objects: &Objects, object: u32) -> bool
    ensures { result ≡ true → (object < length objects.now) × (is_dead_object objects.now object ≡ false) }
{
    object < objects.len() && !objects.is_dead(object)
}
