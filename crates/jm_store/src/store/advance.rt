//! Events that move one monitor at most and make none, or make one and move none: they are done at once, without a
//! plan.
ghost use Rattle.std.specs.Prelude.{◌≡◌, ℕ, ◌+◌, ◌<◌, ◌≤◌, ◌↔◌, ◌++◌, List, Bool, false, not, Contains, IsTrue, IfNone, IfSome, Some, None, [], ◌∷◌, length, count_by};
ghost use Rattle.std.specs.Option.{option_to_list};
ghost use Rattle.jm_model.specs.Bindings.{is_compatible};
ghost use Rattle.jm_index.specs.Index.{Pair, asked_slots, AreBelow, AreLive, IsFitting};
ghost use Rattle.jm_monitors.specs.declared.stored.Stored.{Stored as Kept};
ghost use Rattle.jm_monitors.specs.Steps.{AreMarksAfter};
ghost use Rattle.jm_store.specs.Slots.{monitor_at};
ghost use Rattle.jm_store.specs.Moves.{AreGiven, IsReadAt, IsCompatibleAt, AreMovesRead, asks_by, is_marked, EndsFewer, IsEnding};
ghost use Rattle.jm_store.specs.Contents.{stored_of, with_ending, with_open, IsFit, IsFilled, ArePlaced, ArePaired, IsPlacedOne, KeepsContents, KeepsAllButMarks, StaysClosed, StaysFit, IsAbove};
ghost use Rattle.jm_store.specs.Listed.{KeepListed};
ghost use Rattle.jm_store.specs.Plans.{CanPlan, Advances, IsSilent, IsStepDone, IsSlotDone};

use super::Store;
use super::reach::make_room;
use crate::ending::end_fewer;
use crate::event::{Call, Event, KnownCall, MarkStatus};
use crate::moves::{MANY, Move};
use crate::report::report_one;
use crate::waking::{follow, wake};
use jm_awake::Awake;
use jm_marks::dead_mask;
use jm_model::{Binding, Firings, Letter, Monitor, NoMemory, Steps};
use jm_monitors::Stored;
use jm_objects::Objects;
use std::alloc::Global;
use std::sync::ledger::Ledger;

/// An event that was done: its answer, twice.
#[derive(Drop)]
pub struct Done {
    pub answer: Firings,
    pub copy: Firings,
}

impl Done {
    /// What an event comes to that neither moves a monitor nor makes one: no handler runs.
    pub(super) fn nothing(alloc: Global) -> Done
        ensures answer { result.answer ≡ [] }
        ensures copy { result.copy ≡ [] }
    {
        Done {
            answer: Firings::new(alloc),
            copy: Firings::new(alloc),
        }
    }
}

impl<M: Monitor> Store<M> {
    /// Whether a binding is a mark.
    pub fn status_of(&self, binding: &Binding) -> MarkStatus
        ensures { IsTrue (is_marked result) ↔ Contains self.now.marks binding.now }
    {
        if self.marks.contains(binding) {
            MarkStatus::Marked
        } else {
            MarkStatus::Unmarked
        }
    }

    /// Does an event, if it moves one monitor at most and makes none, or makes one and moves none, unless out of
    /// memory. Where it doesn't do it, monitors and marks are as before. Only monitors that are compatible with the
    /// binding are read, each once.
    pub fn advance_one<L: Ledger>(
        &mut self,
        call: &Call<'_, M>,
        awake: &mut Awake,
        status: MarkStatus,
        steps: &mut Steps<L>,
    ) -> Option<Done>
        requires can { CanPlan (M.meaning (M.definition call.now.rules.now)) call.now.objects.now call.now.letter.0
            call.now.binding.now self.old }
        requires known { IsTrue (is_marked status) ↔ Contains self.old.marks call.now.binding.now }
        ensures advances { Advances (M.meaning (M.definition call.now.rules.now)) (M.StandsFor call.now.rules.now)
            call.now.objects.now call.now.letter.0 call.now.binding.now self.old self.new result }
        ensures listed { KeepListed (M.meaning (M.definition call.now.rules.now)) (M.StandsFor call.now.rules.now)
            call.now.objects.now self.old.monitors self.new.monitors awake.old awake.new }
        ensures steps { steps.new ≤ steps.old + count_by (λ s. is_compatible s.instance call.now.binding.now)
            (stored_of self.old) }
    {
        let mut slots = self.take_slots();
        let asked = KnownCall { call, status };
        let done = if status.is_marked() {
            match self.only_slot_above(call.objects, call.binding, &mut slots) {
                Some(Some(slot)) => self.advance_slot(call, awake, slot, steps),
                Some(None) => Some(Done::nothing(*self.domains.allocator())),
                None if slots.len() > MANY => None,
                None => self.advance_only(&asked, awake, &mut slots, steps),
            }
        } else {
            self.advance_only(&asked, awake, &mut slots, steps)
        };
        self.give_slots(slots);
        done
    }

    /// The slot of the only monitor above a binding, or that there is none. Where several are or may be, since several
    /// sets of parameters have the binding's, or out of memory, it can't be told.
    fn only_slot_above(
        &self,
        objects: &Objects,
        binding: &Binding,
        slots: &mut Vec<usize>,
    ) -> Option<Option<usize>>
        requires closed { self.now.is_open ≡ false }
        requires fits { IsFitting self.now.index objects.now }
        requires live { AreLive objects.now binding.now }
        ensures { IfSome result (IsAbove binding.now self.now) }
    {
        slots.clear();
        let mask = binding.mask();
        let mut above = None;
        for domain in &self.domains {
            if mask & *domain == mask {
                if above.is_some() {
                    return None;
                }
                above = Some(*domain);
            }
        }
        let Some(domain) = above else {
            return Some(None);
        };
        self.only_slot_in(objects, domain, binding, slots)
    }

    /// The slot of the only monitor with a set of parameters that is compatible with a binding, or that there is none.
    /// Where several are, or out of memory, it can't be told.
    #[inline(always)]
    fn only_slot_in(
        &self,
        objects: &Objects,
        domain: u8,
        binding: &Binding,
        slots: &mut Vec<usize>,
    ) -> Option<Option<usize>>
        requires fits { IsFitting self.now.index objects.now }
        requires live { AreLive objects.now binding.now }
        ensures { IfSome result (λ only. asked_slots domain binding.now self.now.index.list ≡ option_to_list only) }
    {
        let Ok(()) = self.index.compatible_into(objects, domain, binding, slots) else {
            return None;
        };
        if slots.len() > 1 {
            return None;
        }
        Some(slots.pop())
    }

    /// Does an event with a binding above which several monitors may be, or one that may make a new instance.
    #[inline(never)]
    fn advance_only<L: Ledger>(
        &mut self,
        asked: &KnownCall<'_, M>,
        awake: &mut Awake,
        slots: &mut Vec<usize>,
        steps: &mut Steps<L>,
    ) -> Option<Done>
        requires can { CanPlan (M.meaning (M.definition asked.now.call.now.rules.now)) asked.now.call.now.objects.now
            asked.now.call.now.letter.0 asked.now.call.now.binding.now self.old }
        requires known { IsTrue (is_marked asked.now.status) ↔ Contains self.old.marks asked.now.call.now.binding.now }
        ensures advances { Advances (M.meaning (M.definition asked.now.call.now.rules.now)) (M.StandsFor
            asked.now.call.now.rules.now) asked.now.call.now.objects.now asked.now.call.now.letter.0
            asked.now.call.now.binding.now self.old self.new result }
        ensures listed { KeepListed (M.meaning (M.definition asked.now.call.now.rules.now)) (M.StandsFor
            asked.now.call.now.rules.now) asked.now.call.now.objects.now self.old.monitors self.new.monitors awake.old
            awake.new }
        ensures steps { steps.new ≤ steps.old + count_by (λ s. is_compatible s.instance asked.now.call.now.binding.now)
            (stored_of self.old) }
    {
        let call = asked.call;
        let event = Event {
            rules: call.rules,
            objects: call.objects,
            marks: &self.marks,
            letter: call.letter,
            binding: call.binding,
            status: asked.status,
        };
        match self.find_only(&event, slots, steps)? {
            Some(step) => {
                self.room_for(&step, slots)?;
                self.take_step(call, awake, step, asked.status)
            }
            None => self.take_none(call.binding, asked.status),
        }
    }

    /// What the event makes of the only monitor of which it makes something, or that there is none. Where there are
    /// several, or out of memory, it can't be told.
    #[inline(always)]
    fn find_only<L: Ledger>(
        &self,
        event: &Event<'_, M>,
        slots: &mut Vec<usize>,
        steps: &mut Steps<L>,
    ) -> Option<Option<Move<M::State>>>
        requires closed { self.now.is_open ≡ false }
        requires letter { event.now.letter.0 < (M.meaning (M.definition event.now.rules.now)).letters }
        requires known { IsTrue (is_marked event.now.status) ↔ Contains event.now.marks.now.list event.now.binding.now }
        requires fits { IsFitting self.now.index event.now.objects.now }
        requires live { AreLive event.now.objects.now event.now.binding.now }
        ensures read { IfSome result (λ only. AreMovesRead (M.meaning (M.definition event.now.rules.now))
            (M.StandsFor event.now.rules.now) event.now.letter.0 event.now.binding.now
            event.now.objects.now event.now.marks.now.list
            (asks_by (is_marked event.now.status) self.now.ending event.now.letter.0 event.now.binding.now)
            self.now.monitors (option_to_list only)) }
        ensures steps { steps.new ≤ steps.old + count_by (λ s. is_compatible s.instance event.now.binding.now)
            (stored_of self.now) }
    {
        let mut only = None;
        for domain in &self.domains {
            if event.asks(self.ending[*domain as usize], *domain) {
                let Ok(()) = self
                    .index
                    .compatible_into(event.objects, *domain, event.binding, slots)
                else {
                    return None;
                };
                if slots.len() > MANY {
                    return None;
                }
                self.find_among(event, slots.as_slice(), &mut only, steps)?;
            }
        }
        Some(only)
    }

    /// Looks among the monitors of some slots for the only one of which the event makes something: `only` is what was
    /// found before, and then what is found. Where there is a second, or out of memory, it can't be told.
    #[inline(always)]
    fn find_among<L: Ledger>(
        &self,
        event: &Event<'_, M>,
        slots: &[usize],
        only: &mut Option<Move<M::State>>,
        steps: &mut Steps<L>,
    ) -> Option<()>
        requires letter { event.now.letter.0 < (M.meaning (M.definition event.now.rules.now)).letters }
        requires known { IsTrue (is_marked event.now.status) ↔ Contains event.now.marks.now.list event.now.binding.now }
        requires compatible { (k : ℕ) → Contains slots.now k
            → IsCompatibleAt event.now.binding.now (monitor_at self.now.monitors k) }
        ensures read { IfSome result (λ done. (before : List ℕ)
            → AreGiven (IsReadAt (M.meaning (M.definition event.now.rules.now))
            (M.StandsFor event.now.rules.now) event.now.letter.0 event.now.binding.now
            event.now.objects.now event.now.marks.now.list self.now.monitors) before (option_to_list only.old)
            → AreGiven (IsReadAt (M.meaning (M.definition event.now.rules.now))
            (M.StandsFor event.now.rules.now) event.now.letter.0 event.now.binding.now
            event.now.objects.now event.now.marks.now.list self.now.monitors)
            (before ++ slots.now) (option_to_list only.new)) }
        ensures steps { steps.new ≤ steps.old + length slots.now }
    {
        for slot in slots {
            if let Some(base) = self.monitors.lend(*slot, steps) {
                let Ok(found) = event.outcome(*slot, base) else {
                    return None;
                };
                if found.is_some() {
                    if only.is_some() {
                        return None;
                    }
                    *only = found;
                }
            }
        }
        Some(())
    }

    /// Does an event that makes nothing of any monitor, unless out of memory.
    fn take_none(&mut self, binding: &Binding, status: MarkStatus) -> Option<Done>
        requires closed { self.old.is_open ≡ false }
        requires known { IsTrue (is_marked status) → Contains self.old.marks binding.now }
        ensures unchanged { IfNone result (self.new ≡ self.old) }
        ensures kept { KeepsAllButMarks self.old self.new }
        ensures closed { self.new.is_open ≡ false }
        ensures fits { (dead : List Bool) → IsFit self.old dead → AreBelow (length dead) binding.now
            → IsFit self.new dead }
        ensures marks { IfSome result (λ done. AreMarksAfter binding.now self.old.marks self.new.marks) }
        ensures silent { IfSome result IsSilent }
    {
        let alloc = *self.domains.allocator();
        self.open_for(status)?;
        self.close(binding, status);
        Some(Done::nothing(alloc))
    }

    /// Does an event that makes this of one monitor and nothing of others, unless out of memory.
    #[inline(always)]
    fn take_step(
        &mut self,
        call: &Call<'_, M>,
        awake: &mut Awake,
        mut step: Move<M::State>,
        status: MarkStatus,
    ) -> Option<Done>
        requires closed { self.old.is_open ≡ false }
        requires known { IsTrue (is_marked status) → Contains self.old.marks call.now.binding.now
            × (step.slot ≡ None → ⊥) }
        requires leads { ArePlaced self.old (step ∷ []) }
        ensures unchanged { IfNone result (KeepsContents self.old self.new) }
        ensures closed { self.new.is_open ≡ false }
        ensures fits { StaysFit call.now.binding.now step.monitor.instance self.old self.new }
        ensures done { IfSome result (IsStepDone (M.meaning (M.definition call.now.rules.now))
            (M.StandsFor call.now.rules.now) call.now.binding.now step self.old self.new) }
        ensures listed { (dead : List Bool) → KeepListed (M.meaning (M.definition call.now.rules.now))
            (M.StandsFor call.now.rules.now) dead self.old.monitors self.new.monitors awake.old awake.new }
    {
        let Ok(answer) = report_one(
            *self.domains.allocator(),
            call.rules,
            &step.monitor.instance,
            &step.monitor.state,
        ) else {
            return None;
        };
        let Ok(copy) = answer.copy() else {
            return None;
        };
        self.open_for(status)?;
        self.place_one(&mut step)?;
        self.end_one(call.rules, &step.monitor);
        follow::<M>(awake, &step);
        self.carry_out(step);
        self.close(call.binding, status);
        Some(Done { answer, copy })
    }

    /// Makes room for a mark, where the binding isn't known to be one, unless out of memory.
    #[inline(always)]
    fn open_for(&mut self, status: MarkStatus) -> Option<()>
        requires { self.old.is_open ≡ false }
        ensures unchanged { IfNone result (self.new ≡ self.old) }
        ensures opened { IfSome result (λ done. self.new ≡ with_open self.old (not (is_marked status))) }
    {
        if status.is_marked() {
            return Some(());
        }
        let Ok(()) = self.marks.reserve() else {
            return None;
        };
        self.is_open = true;
        Some(())
    }

    /// Makes the room that a pass has for slots, where a new instance is made, unless out of memory.
    #[inline(always)]
    fn room_for(&self, step: &Move<M::State>, slots: &mut Vec<usize>) -> Option<()> {
        if step.slot.is_some() {
            return Some(());
        }
        match make_room(slots, self.monitors.count_slots()) {
            Ok(()) => Some(()),
            Err(NoMemory) => None,
        }
    }

    /// Gives a move a slot, if it has none, unless out of memory.
    #[inline(always)]
    fn place_one(&mut self, step: &mut Move<M::State>) -> Option<()>
        requires slotted { self.old.is_open ≡ false → step.old.slot ≡ None → ⊥ }
        requires settled { (pair : Pair) → Contains self.old.index.list pair → IsFilled self.old pair }
        requires leads { ArePlaced self.old (step.old ∷ []) }
        ensures kept { KeepsContents self.old self.new }
        ensures fits { (dead : List Bool) → IsFitting self.old.index dead
            → AreBelow (length dead) step.old.monitor.instance → IsFitting self.new.index dead }
        ensures closed { IfNone result (self.new.is_open ≡ false) }
        ensures placed { IfSome result (λ done. IsPlacedOne self.old self.new step.old step.new) }
        ensures paired { ArePaired self.new }
    {
        let _monitors = &self.monitors;
        if step.slot.is_some() {
            return Some(());
        }
        match self.place(&step.monitor.instance) {
            Ok(slot) => {
                let _monitors = &self.monitors;
                step.slot = slot;
                Some(())
            }
            Err(NoMemory) => {
                self.is_open = false;
                None
            }
        }
    }

    /// Keeps of the letters that end monitors with its set of parameters those that end a monitor too.
    #[inline(always)]
    fn end_one(&mut self, rules: &M, monitor: &Stored<M::State>)
        ensures unchanged { self.new ≡ with_ending self.old self.new.ending }
        ensures fewer { EndsFewer self.old.ending self.new.ending }
        ensures ended { IsEnding (M.meaning (M.definition rules.now)) (M.StandsFor rules.now) self.new.ending
            monitor.now }
    {
        end_fewer(
            &mut self.ending,
            monitor.instance.mask(),
            rules.ending(&monitor.state),
        );
    }

    /// Makes the binding a mark, where it isn't known to be one.
    #[inline(always)]
    fn close(&mut self, binding: &Binding, status: MarkStatus)
        requires opened { self.old.is_open ≡ not (is_marked status) }
        requires known { IsTrue (is_marked status) → Contains self.old.marks binding.now }
        requires settled { (pair : Pair) → Contains self.old.index.list pair → IsFilled self.old pair }
        ensures kept { KeepsAllButMarks self.old self.new }
        ensures closed { self.new.is_open ≡ false }
        ensures marks { AreMarksAfter binding.now self.old.marks self.new.marks }
        ensures fits { (dead : List Bool) → IsFitting self.old.index dead
            → ((t : Binding) → Contains self.old.marks t → AreBelow (length dead) t)
            → AreBelow (length dead) binding.now → IsFit self.new dead }
    {
        if !status.is_marked() {
            self.marks.add(*binding);
            self.is_open = false;
        }
    }
}
