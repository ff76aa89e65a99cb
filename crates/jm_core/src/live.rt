//! What is live of a core, and what an event comes to there.
ghost use Rattle.std.specs.Prelude.{◌≡◌, ◌<◌, ◌↔◌, false, None, Contains, IsTrue, length};
ghost use Rattle.jm_index.specs.Index.{AreBelow, AreLive, IsFitting};
ghost use Rattle.jm_store.specs.Moves.{is_marked};
ghost use Rattle.jm_store.specs.Listed.{AreListed, HasList, KeepListed};
ghost use Rattle.jm_store.specs.Plans.{CanPlan};
ghost use Rattle.jm_core.specs.Inside.{first_dead_by, CanPerform, Performs};

use jm_awake::Awake;
use jm_model::{Binding, Firings, Monitor, NoMemory, Outcome, Steps};
use jm_objects::Objects;
use jm_store::{Call, MarkStatus, Store};
use std::alloc::Global;
use std::sync::ledger::{Blank, Ledger};

/// What is live of a core: what of its history can still matter.
#[derive(Drop)]
pub(crate) struct Live<M: Monitor> {
    /// The monitors and marks.
    pub(crate) store: Store<M>,
    /// Lists of the monitors that an event may change.
    pub(crate) awake: Awake,
}

impl<M: Monitor> Live<M> {
    /// What an event comes to, twice: it is refused where it binds a dead object, with the first one. Unless it is
    /// answered, monitors and marks stay as they are. Where there is a list of it, only the listed monitors are read.
    /// The counter of what it reads is made of a ledger of one part.
    #[inline(always)]
    pub(crate) fn perform<L: Ledger>(
        &mut self,
        alloc: Global,
        call: &Call<M>,
        blank: Blank,
    ) -> (Outcome, Outcome)
        requires name { blank.name ≡ L.name }
        requires parts { blank.parts ≡ L.parts }
        requires one { blank.parts ≡ 1 }
        requires can { CanPerform (M.meaning (M.definition call.now.rules.now)) (M.StandsFor call.now.rules.now)
            call.now.objects.now (record { letter = call.now.letter.0; binding = call.now.binding.now })
            self.old.store self.old.awake }
        ensures { Performs (M.meaning (M.definition call.now.rules.now)) (M.StandsFor call.now.rules.now)
            call.now.objects.now (record { letter = call.now.letter.0; binding = call.now.binding.now })
            self.old.store self.new.store self.old.awake self.new.awake result }
    {
        let mut steps = Steps::<L>::new(blank);
        if let Some(object) = first_dead(call.objects, call.binding) {
            return (Outcome::Refused(object), Outcome::Refused(object));
        }
        let status = self.store.status_of(call.binding);
        if status.is_marked() {
            let _letters = call.rules.letters();
            if let Some(place) = self.awake.find(call.letter, call.binding) {
                if let Some(done) = self
                    .store
                    .advance_listed(call, &mut self.awake, place, &mut steps)
                {
                    return (Outcome::Fired(done.answer), Outcome::Fired(done.copy));
                }
                return self.fire_listed(alloc, call, place, &mut steps);
            }
        }
        if let Some(done) = self
            .store
            .advance_one(call, &mut self.awake, status, &mut steps)
        {
            return (Outcome::Fired(done.answer), Outcome::Fired(done.copy));
        }
        self.fire(call, status, &mut steps)
    }

    /// What an event comes to whose list was found, by a plan.
    #[inline(always)]
    fn fire_listed<L: Ledger>(
        &mut self,
        alloc: Global,
        call: &Call<M>,
        place: usize,
        steps: &mut Steps<L>,
    ) -> (Outcome, Outcome)
        requires can { CanPlan (M.meaning (M.definition call.now.rules.now)) call.now.objects.now call.now.letter.0
            call.now.binding.now self.old.store }
        requires list { HasList (M.meaning (M.definition call.now.rules.now)) (M.StandsFor call.now.rules.now)
            call.now.objects.now call.now.letter.0 call.now.binding.now self.old.store.marks self.old.store.monitors
            self.old.awake place }
        requires live { first_dead_by call.now.objects.now call.now.binding.now ≡ None }
        ensures { Performs (M.meaning (M.definition call.now.rules.now)) (M.StandsFor call.now.rules.now)
            call.now.objects.now (record { letter = call.now.letter.0; binding = call.now.binding.now })
            self.old.store self.new.store self.old.awake self.new.awake result }
    {
        let planned = self.store.plan_listed(call, &mut self.awake, place, steps);
        match planned {
            Ok(Some(plan)) => {
                self.store.follow(&mut self.awake, &plan);
                let (answer, copy) = self.store.commit(plan);
                (Outcome::Fired(answer), Outcome::Fired(copy))
            }
            Ok(None) => (
                Outcome::Fired(Firings::new(alloc)),
                Outcome::Fired(Firings::new(alloc)),
            ),
            Err(NoMemory) => (Outcome::NoMemory, Outcome::NoMemory),
        }
    }

    /// What an event comes to of which there is no list, by a plan.
    fn fire<L: Ledger>(
        &mut self,
        call: &Call<M>,
        status: MarkStatus,
        steps: &mut Steps<L>,
    ) -> (Outcome, Outcome)
        requires can { CanPlan (M.meaning (M.definition call.now.rules.now)) call.now.objects.now call.now.letter.0
            call.now.binding.now self.old.store }
        requires known { IsTrue (is_marked status) ↔ Contains self.old.store.marks call.now.binding.now }
        requires live { first_dead_by call.now.objects.now call.now.binding.now ≡ None }
        requires listed { AreListed (M.meaning (M.definition call.now.rules.now)) (M.StandsFor call.now.rules.now)
            call.now.objects.now self.old.store.monitors self.old.awake }
        ensures { Performs (M.meaning (M.definition call.now.rules.now)) (M.StandsFor call.now.rules.now)
            call.now.objects.now (record { letter = call.now.letter.0; binding = call.now.binding.now })
            self.old.store self.new.store self.old.awake self.new.awake result }
    {
        match self.store.plan_as(call, status, steps) {
            Ok(plan) => {
                let listed = status.is_marked() && plan.is_worth_listing();
                self.store.follow(&mut self.awake, &plan);
                let (answer, copy) = self.store.commit(plan);
                list_if(call, &self.store, &mut self.awake, listed);
                (Outcome::Fired(answer), Outcome::Fired(copy))
            }
            Err(NoMemory) => (Outcome::NoMemory, Outcome::NoMemory),
        }
    }
}

/// Lists the monitors above the binding of an event, if that is worth its while: when the event comes again, it reads
/// only those that it may change.
fn list_if<M: Monitor>(call: &Call<M>, store: &Store<M>, awake: &mut Awake, listed: bool)
    requires closed { store.now.is_open ≡ false }
    requires letter { call.now.letter.0 < (M.meaning (M.definition call.now.rules.now)).letters }
    requires fits { IsFitting store.now.index call.now.objects.now }
    requires live { AreLive call.now.objects.now call.now.binding.now }
    ensures { KeepListed (M.meaning (M.definition call.now.rules.now)) (M.StandsFor call.now.rules.now)
        call.now.objects.now store.now.monitors store.now.monitors awake.old awake.new }
{
    if listed {
        store.list(call, awake);
    }
}

/// The first dead object that a binding binds, in the order of the parameters.
fn first_dead(objects: &Objects, binding: &Binding) -> Option<u32>
    requires eight { length binding.now ≡ 8 }
    requires in_range { AreBelow (length objects.now) binding.now }
    ensures { result ≡ first_dead_by objects.now binding.now }
{
    if !objects.any_dead() {
        return None;
    }
    for p in 0..8 {
        if let Some(object) = binding.get(p) {
            if objects.is_dead(object) {
                return Some(object);
            }
        }
    }
    None
}
