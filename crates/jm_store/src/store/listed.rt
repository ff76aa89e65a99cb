//! Events of which it is known which monitors they may change: the others are at rest, and aren't read.
ghost use Rattle.std.specs.Prelude.{◌≡◌, ℕ, ◌+◌, ◌<◌, ◌≤◌, ◌↔◌, [], List, Bool, Option, Some, None, Contains, IfOk, OnOk, IsTrue, true, false, length, count_by};
ghost use Rattle.jm_model.specs.Bindings.{is_below, is_compatible};
ghost use Rattle.jm_awake.specs.Awake.{list_at, IsListOf, AreSound, AreFound, AreStill};
ghost use Rattle.jm_index.specs.Index.{AreLive, IsFitting, flag_of};
ghost use Rattle.jm_monitors.specs.declared.stored.Stored.{Stored as Kept};
ghost use Rattle.jm_monitors.specs.Steps.{after_death};
ghost use Rattle.jm_store.specs.Slots.{monitor_at};
ghost use Rattle.jm_store.specs.Moves.{after_moves, is_marked, AreGiven, IsReadAt, AreVisited, has_all};
ghost use Rattle.jm_store.specs.Contents.{stored_of, monitors_after, AreReady, IsPlanFor};
ghost use Rattle.jm_store.specs.Listed.{occupants_of, slots_listed, AreListed, AreListedBut, HasList, AreLeftOf, KeepEntries, KeepListed, IsInAll};
ghost use Rattle.jm_store.specs.Plans.{CanPlan, PlansUnlessRests};

use super::Store;
use crate::event::{Call, Event, ListedEvent, MarkStatus};
use crate::moves::{Move, Plan};
use crate::waking::follow_all;
use jm_awake::Awake;
use jm_index::NoRoom;
use jm_model::{Binding, Letter, Monitor, NoMemory, Steps};
use jm_objects::Objects;
use std::sync::ledger::Ledger;

impl<M: Monitor> Store<M> {
    /// Works out an event whose binding is a mark, and of which there is a list: only the monitors of the list are
    /// read, each once, and those at rest leave it. Where no monitor changes, there is no plan.
    #[inline(never)]
    pub fn plan_listed<L: Ledger>(
        &mut self,
        call: &Call<'_, M>,
        awake: &mut Awake,
        place: usize,
        steps: &mut Steps<L>,
    ) -> Result<Option<Plan<M::State>>, NoMemory>
        requires can { CanPlan (M.meaning (M.definition call.now.rules.now)) call.now.objects.now call.now.letter.0
            call.now.binding.now self.old }
        requires list { HasList (M.meaning (M.definition call.now.rules.now)) (M.StandsFor call.now.rules.now)
            call.now.objects.now call.now.letter.0 call.now.binding.now self.old.marks self.old.monitors
            awake.old place }
        ensures plans { PlansUnlessRests (M.meaning (M.definition call.now.rules.now)) (M.StandsFor call.now.rules.now)
            call.now.objects.now call.now.letter.0 call.now.binding.now self.old self.new result }
        ensures listed { AreListed (M.meaning (M.definition call.now.rules.now)) (M.StandsFor call.now.rules.now)
            call.now.objects.now self.old.monitors awake.new }
        ensures steps { steps.new ≤ steps.old + count_by (λ s. is_compatible s.instance call.now.binding.now)
            (stored_of self.old) }
    {
        if awake.entries(place).is_empty() {
            return Ok(None);
        }
        let mut moves = self.take_moves();
        let event = Event {
            rules: call.rules,
            objects: call.objects,
            marks: &self.marks,
            letter: call.letter,
            binding: call.binding,
            status: MarkStatus::Marked,
        };
        let listed = ListedEvent { event, place };
        let read = self.read_listed(&listed, awake, &mut moves, steps);
        awake.tidy(place);
        read?;
        if moves.as_slice().is_empty() {
            self.give_moves(moves);
            return Ok(None);
        }
        let plan = self.plan_of(call, MarkStatus::Marked, moves, 0)?;
        Ok(Some(plan))
    }

    /// What the event makes of the monitors of its list. Those that it leaves as they are leave the lists of the
    /// letter, and are still among the entries of this one.
    fn read_listed<L: Ledger>(
        &self,
        listed: &ListedEvent<'_, M>,
        awake: &mut Awake,
        moves: &mut Vec<Move<M::State>>,
        steps: &mut Steps<L>,
    ) -> Result<(), NoMemory>
        requires letter { listed.now.event.letter.0 < (M.meaning (M.definition listed.now.event.rules.now)).letters }
        requires known { IsTrue (is_marked listed.now.event.status) ↔ Contains listed.now.event.marks.now.list
            listed.now.event.binding.now }
        requires list { HasList (M.meaning (M.definition listed.now.event.rules.now)) (M.StandsFor
            listed.now.event.rules.now) listed.now.event.objects.now listed.now.event.letter.0
            listed.now.event.binding.now listed.now.event.marks.now.list self.now.monitors awake.old listed.now.place }
        requires none { moves.old.items ≡ [] }
        ensures moves { OnOk result (AreGiven (IsReadAt (M.meaning (M.definition listed.now.event.rules.now))
            (M.StandsFor listed.now.event.rules.now) listed.now.event.letter.0 listed.now.event.binding.now
            listed.now.event.objects.now listed.now.event.marks.now.list self.now.monitors)
            (slots_listed awake.old listed.now.place) moves.new.items) }
        ensures listed { AreListedBut (M.meaning (M.definition listed.now.event.rules.now)) (M.StandsFor
            listed.now.event.rules.now) listed.now.event.objects.now (Some listed.now.place) self.now.monitors
            awake.new }
        ensures steps { steps.new ≤ steps.old + length (slots_listed awake.old listed.now.place) }
    {
        for at in 0..awake.entries(listed.place).len() {
            let entry = awake.entries(listed.place)[at];
            if awake.is_there(&entry) {
                match self.read_entry(&listed.event, awake, entry.slot(), steps)? {
                    Some(step) => moves.push(step)?,
                    None => {}
                }
            }
        }
        Ok(())
    }

    /// What it makes of the monitor of a slot. If it leaves the monitor as it is, the slot leaves the lists of the
    /// letter.
    #[inline(always)]
    fn read_entry<L: Ledger>(
        &self,
        event: &Event<'_, M>,
        awake: &mut Awake,
        slot: usize,
        steps: &mut Steps<L>,
    ) -> Result<Option<Move<M::State>>, NoMemory>
        requires letter { event.now.letter.0 < (M.meaning (M.definition event.now.rules.now)).letters }
        requires known { IsTrue (is_marked event.now.status) ↔ Contains event.now.marks.now.list event.now.binding.now }
        requires marked { Contains event.now.marks.now.list event.now.binding.now }
        requires above { (s : Kept M.State) → monitor_at self.now.monitors slot ≡ Some s
            → is_below event.now.binding.now s.instance ≡ true }
        ensures moves { IfOk result (IsReadAt (M.meaning (M.definition event.now.rules.now))
            (M.StandsFor event.now.rules.now) event.now.letter.0 event.now.binding.now
            event.now.objects.now event.now.marks.now.list self.now.monitors slot) }
        ensures listed { (place : ℕ) → IsListOf (list_at awake.old place) event.now.letter.0 event.now.binding.now
            → AreListedBut (M.meaning (M.definition event.now.rules.now)) (M.StandsFor event.now.rules.now)
            event.now.objects.now (Some place) self.now.monitors awake.old
            → AreListedBut (M.meaning (M.definition event.now.rules.now)) (M.StandsFor event.now.rules.now)
            event.now.objects.now (Some place) self.now.monitors awake.new }
        ensures entries { KeepEntries awake.old awake.new }
        ensures steps { steps.new ≤ steps.old + 1 }
    {
        let Some(base) = self.monitors.lend(slot, steps) else {
            return Ok(None);
        };
        match event.outcome(slot, base)? {
            Some(step) => Ok(Some(step)),
            None => {
                let _letters = event.rules.letters();
                awake.unlist(slot, event.letter);
                Ok(None)
            }
        }
    }

    /// Takes in what a plan makes of the monitors, before it is carried out. It takes memory for lists alone; where it
    /// is out of memory, lists are let go.
    pub fn follow(&self, awake: &mut Awake, plan: &Plan<M::State>)
        requires { IsPlanFor self.now plan.now }
        ensures { (rules : M) (dead : List Bool) → KeepListed (M.meaning (M.definition rules)) (M.StandsFor rules) dead
            self.now.monitors (monitors_after self.now plan.now) awake.old awake.new }
    {
        self.follow_moves(awake, plan.moves.as_slice());
    }

    /// Takes in what moves make of the monitors of their slots, before they are carried out.
    #[inline(always)]
    pub(super) fn follow_moves(&self, awake: &mut Awake, moves: &[Move<M::State>])
        requires { AreReady self.now moves.now }
        ensures { (rules : M) (dead : List Bool) → KeepListed (M.meaning (M.definition rules)) (M.StandsFor rules) dead
            self.now.monitors (after_moves moves.now self.now.monitors) awake.old awake.new }
    {
        let _monitors = &self.monitors;
        follow_all::<M>(awake, moves);
    }

    /// Makes a list of the monitors above an event's binding, which the event reads from now on. It takes the place of
    /// the list of another binding with the same first object. Out of memory, none is made, or lists are let go.
    #[inline(never)]
    pub fn list(&self, call: &Call<'_, M>, awake: &mut Awake)
        requires closed { self.now.is_open ≡ false }
        requires letter { call.now.letter.0 < (M.meaning (M.definition call.now.rules.now)).letters }
        requires fits { IsFitting self.now.index call.now.objects.now }
        requires live { AreLive call.now.objects.now call.now.binding.now }
        ensures { KeepListed (M.meaning (M.definition call.now.rules.now)) (M.StandsFor call.now.rules.now)
            call.now.objects.now self.now.monitors self.now.monitors awake.old awake.new }
    {
        let alloc = *self.domains.allocator();
        let mut above = Vec::new(alloc);
        let Ok(()) = self.add_above(call.objects, call.binding, &mut above) else {
            return;
        };
        let _letters = call.rules.letters();
        awake.list_all(call.letter, call.binding, above.as_slice());
    }

    /// Adds the slots of the monitors above a binding.
    fn add_above(
        &self,
        objects: &Objects,
        binding: &Binding,
        above: &mut Vec<usize>,
    ) -> Result<(), NoMemory>
        requires closed { self.now.is_open ≡ false }
        requires fits { IsFitting self.now.index objects.now }
        requires live { AreLive objects.now binding.now }
        requires none { above.old.items ≡ [] }
        ensures visit { OnOk result (AreVisited (has_all binding.now) binding.now self.now.monitors above.new.items) }
        ensures above { OnOk result ((k : ℕ) (s : Kept M.State) → Contains above.new.items k
            → monitor_at self.now.monitors k ≡ Some s → is_below binding.now s.instance ≡ true) }
    {
        let mask = binding.mask();
        let mut slots = Vec::new(*self.domains.allocator());
        for domain in &self.domains {
            if mask & *domain == mask {
                self.index
                    .compatible_into(objects, *domain, binding, &mut slots)?;
                above.extend_from_slice(slots.as_slice())?;
            }
        }
        Ok(())
    }

    /// Takes in the death of an object, of which there is no event any more: its lists are let go, and its monitors
    /// come into all others, since it may have cut them. It takes no memory; where there is no room, lists are let go.
    #[inline(never)]
    pub fn mourn(&mut self, awake: &mut Awake, object: u32)
        requires { flag_of self.old.index.dropped object ≡ false }
        ensures unchanged { self.new ≡ self.old }
        ensures listed { (rules : M) (dead : List Bool)
            → AreListed (M.meaning (M.definition rules)) (M.StandsFor rules) dead self.old.monitors awake.old
            → AreListed (M.meaning (M.definition rules)) (M.StandsFor rules) (after_death dead object)
            self.old.monitors awake.new }
    {
        if awake.letters() == 0 {
            return;
        }
        awake.bury(object);
        let mut slots = self.take_slots();
        slots.clear();
        match self.index.add_slots_of(object, &mut slots) {
            Ok(()) => self.wake_all(awake, slots.as_slice()),
            Err(NoRoom) => awake.forget(),
        }
        self.give_slots(slots);
    }

    /// Takes in that a pass dropped monitors: their slots leave the lists. It takes no memory.
    #[inline(never)]
    pub fn settle(&self, awake: &mut Awake)
        ensures { (rules : M) (dead : List Bool) (before : List (Option (Kept M.State)))
            → AreLeftOf before self.now.monitors
            → KeepListed (M.meaning (M.definition rules)) (M.StandsFor rules) dead before self.now.monitors
            awake.old awake.new }
    {
        if awake.letters() == 0 {
            awake.forget();
            return;
        }
        for slot in 0..self.monitors.count_slots() {
            match self.monitors.instance(slot) {
                Some(_) => {}
                None => awake.leave(slot),
            }
        }
    }

    /// Puts the monitors of these slots into all lists.
    fn wake_all(&self, awake: &mut Awake, slots: &[usize])
        ensures sound { AreSound (occupants_of self.now.monitors) awake.old
            → AreSound (occupants_of self.now.monitors) awake.new }
        ensures still { AreStill None awake.old awake.new }
        ensures told { AreSound (occupants_of self.now.monitors) awake.old → (k : ℕ) (s : Kept M.State)
            → Contains slots.now k → monitor_at self.now.monitors k ≡ Some s → IsInAll awake.new k s.instance }
    {
        for slot in slots {
            self.wake_one(awake, *slot);
        }
    }

    /// Puts the monitor of a slot, if it has one, into all lists.
    fn wake_one(&self, awake: &mut Awake, slot: usize)
        ensures sound { AreSound (occupants_of self.now.monitors) awake.old
            → AreSound (occupants_of self.now.monitors) awake.new }
        ensures still { AreStill None awake.old awake.new }
        ensures told { AreFound awake.old → (s : Kept M.State)
            → monitor_at self.now.monitors slot ≡ Some s → IsInAll awake.new slot s.instance }
    {
        if let Some(instance) = self.monitors.instance(slot) {
            awake.wake(slot, &instance, 0, false, false);
        }
    }
}
