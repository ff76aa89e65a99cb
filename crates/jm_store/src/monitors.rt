//! The container of the monitors.
ghost use Rattle.std.specs.Prelude.{◌≡◌, ◌≢◌, ℕ, ◌+◌, ◌↔◌, [], ◌∷◌, ◌<◌, true, false, List, AllPairs, map, length, slice_set, IfOk, OnOk, OnErr, MatchOption, IsTrue, Some, None};
ghost use Rattle.jm_monitors.specs.declared.stored.Stored.{Stored as Kept};
ghost use Rattle.jm_monitors.specs.Steps.{IsCutState, IsAliveState};
ghost use Rattle.jm_marks.specs.Marks.{dead_mask_of};
ghost use Rattle.jm_store.specs.Slots.{monitors_of, monitor_at, stored_in, slot_at, count_in, IsReserved};
ghost use Rattle.jm_store.specs.Walks.{most_numbers, HaveMonitors, IsShifted, IsRenumbered, AreShifted, AreAlike};
ghost use Rattle.jm_store.specs.declared.monitors.Slot.TheVariants.{Free, Planned, Taken};

use crate::walk::Shift;
use jm_marks::dead_mask;
use jm_model::{Binding, Monitor, NoMemory, Steps};
use jm_monitors::Stored;
use jm_objects::Objects;
use std::alloc::Global;
use std::marker::Model;
use std::sync::ledger::Ledger;

/// A place for a monitor.
#[derive(Drop)]
pub(crate) enum Slot<S> {
    /// Nothing, and the number of another free slot, if there is one.
    Free(usize),
    /// Nothing yet: an open plan has it.
    Planned,
    /// A monitor.
    Taken(Stored<S>),
}

/// Monitors by slot. Contracts see the slots, and the number of a free one.
#[derive(Drop)]
pub(crate) struct Monitors<S> {
    slots: Vec<Slot<S>>,
    /// The number of a free slot, if there is one.
    free: usize,
    /// How many monitors there are.
    taken: usize,
}

impl<S> Model for Monitors<S> {
    ghost use Rattle.std.specs.Prelude.{◌≡◌, length};
    ghost use Rattle.jm_store.specs.Slots.{SlotList, monitors_of, stored_in};

    ghost Value = { SlotList S };

    ghost view = { λ m. record { slots = m.slots.items; free = m.free } };

    ghost invariant = { λ m. m.taken ≡ length (stored_in (monitors_of m.slots.items)) };
}

/// The slots of a container, lent to a walk. They can't be read but by the call that lends a monitor and counts it.
#[derive(Drop)]
pub(crate) struct Lent<'a, S> {
    items: &'a [Slot<S>],
}

impl<S: Drop> Monitors<S> {
    /// No slot.
    pub(crate) fn new(alloc: Global) -> Monitors<S>
        ensures { result.slots ≡ [] }
    {
        Monitors {
            slots: Vec::new(alloc),
            free: 0,
            taken: 0,
        }
    }

    /// One slot, with a monitor.
    pub(crate) fn with_first(alloc: Global, monitor: Stored<S>) -> Result<Monitors<S>, NoMemory>
        ensures { IfOk result (λ monitors. monitors.slots ≡ Taken monitor ∷ []) }
    {
        let mut slots = Vec::new(alloc);
        slots.push(Slot::Taken(monitor))?;
        Ok(Monitors {
            slots,
            free: 1,
            taken: 1,
        })
    }

    /// How many slots there are, free and planned ones among them.
    pub(crate) fn count_slots(&self) -> usize
        ensures { result ≡ length self.now.slots }
    {
        self.slots.len()
    }

    /// The monitor of a slot, which is one step.
    pub(crate) fn lend<L: Ledger>(&self, slot: usize, steps: &mut Steps<L>) -> Option<&Stored<S>>
        ensures value { MatchOption result (monitor_at (monitors_of self.now.slots) slot ≡ None)
            (λ s. monitor_at (monitors_of self.now.slots) slot ≡ Some s.now) }
        ensures steps { MatchOption result (steps.new ≡ steps.old) (λ s. steps.new ≡ steps.old + 1) }
    {
        let lent = self.peek(slot)?;
        steps.tick();
        Some(lent)
    }

    /// The slots, for a walk.
    #[inline(always)]
    pub(crate) fn lend_all(&self) -> Lent<'_, S>
        ensures { result.items.now ≡ self.now.slots }
    {
        Lent {
            items: self.slots.as_slice(),
        }
    }

    /// The monitor of a slot, which a caller has counted.
    pub(crate) fn peek(&self, slot: usize) -> Option<&Stored<S>>
        ensures { MatchOption result (monitor_at (monitors_of self.now.slots) slot ≡ None)
            (λ s. monitor_at (monitors_of self.now.slots) slot ≡ Some s.now) }
    {
        match self.slots.get(slot) {
            Some(Slot::Taken(monitor)) => Some(monitor),
            _ => None,
        }
    }

    /// The instance of a slot's monitor. Nothing else of the monitor is read.
    pub(crate) fn instance(&self, slot: usize) -> Option<Binding>
        ensures { MatchOption result (monitor_at (monitors_of self.now.slots) slot ≡ None)
            (λ t. (s : Kept S) × (monitor_at (monitors_of self.now.slots) slot ≡ Some s) × (s.instance ≡ t)) }
    {
        let monitor = self.peek(slot)?;
        Some(monitor.instance)
    }

    /// Makes a free slot planned, or adds a planned one.
    pub(crate) fn reserve(&mut self) -> Result<usize, NoMemory>
        ensures reserved { IfOk result (λ k. IsReserved self.old.slots self.new.slots k) }
        ensures stored { stored_in (monitors_of self.new.slots) ≡ stored_in (monitors_of self.old.slots) }
        ensures unchanged { OnErr result (self.new.slots ≡ self.old.slots) }
    {
        let slot = self.free;
        match self.slots.get(slot) {
            Some(Slot::Free(next)) => {
                self.free = *next;
                self.slots[slot] = Slot::Planned;
                Ok(slot)
            }
            _ => self.grow(),
        }
    }

    /// Adds a planned slot.
    fn grow(&mut self) -> Result<usize, NoMemory>
        ensures reserved { IfOk result (λ k. IsReserved self.old.slots self.new.slots k) }
        ensures stored { stored_in (monitors_of self.new.slots) ≡ stored_in (monitors_of self.old.slots) }
        ensures unchanged { OnErr result (self.new.slots ≡ self.old.slots) }
    {
        let slot = self.slots.len();
        self.slots.push(Slot::Planned)?;
        Ok(slot)
    }

    /// Whether a slot is planned.
    pub(crate) fn is_planned(&self, slot: usize) -> bool
        ensures { IsTrue result ↔ (slot_at self.now.slots slot ≡ Planned) }
    {
        match self.slots.get(slot) {
            Some(Slot::Planned) => true,
            _ => false,
        }
    }

    /// Frees a slot.
    pub(crate) fn release(&mut self, slot: usize)
        ensures { self.new.slots ≡ slice_set self.old.slots slot (Free self.old.free) }
    {
        if slot < self.slots.len() {
            self.taken -= count_at(&self.slots, slot);
            self.slots[slot] = Slot::Free(self.free);
            self.free = slot;
        }
    }

    /// Puts a monitor into a slot.
    pub(crate) fn put(&mut self, slot: usize, monitor: Stored<S>)
        ensures { self.new.slots ≡ slice_set self.old.slots slot (Taken monitor) }
    {
        if slot < self.slots.len() {
            self.taken = self.taken - count_at(&self.slots, slot) + 1;
            self.slots[slot] = Slot::Taken(monitor);
        }
    }

    /// The instance of a slot's monitor, if that is cut.
    pub(crate) fn cut_instance<M: Monitor<State = S>>(
        &self,
        rules: &M,
        objects: &Objects,
        slot: usize,
    ) -> Option<Binding>
        ensures cut { MatchOption result (MatchOption (monitor_at (monitors_of self.now.slots) slot) (Unit {0}) (λ s.
            IsAliveState (M.meaning (M.definition rules.now)) (M.StandsFor rules.now)
            s.state (dead_mask_of objects.now s.instance)))
            (λ t. (s : Kept S) × (monitor_at (monitors_of self.now.slots) slot ≡ Some s) × (s.instance ≡ t)
            × IsCutState (M.meaning (M.definition rules.now)) (M.StandsFor rules.now)
            s.state (dead_mask_of objects.now t)) }
    {
        let monitor = self.peek(slot)?;
        if is_cut(rules, objects, monitor) {
            Some(monitor.instance)
        } else {
            None
        }
    }

    /// Gives each shift's monitor the state with its number.
    #[inline(always)]
    pub(crate) fn shift_all<M: Monitor<State = S>>(&mut self, rules: &M, shifts: &[Shift])
        requires apart { AllPairs (λ x y. x.slot ≢ y.slot) shifts.now }
        requires present { HaveMonitors shifts.now (monitors_of self.old.slots) }
        ensures moved { AreShifted (M.HasNumber rules.now) shifts.now (monitors_of self.old.slots)
            (monitors_of self.new.slots) }
        ensures alike { AreAlike self.old.slots self.new.slots }
        ensures free { self.new.free ≡ self.old.free }
    {
        shift_all(rules, self.slots.as_mut_slice(), shifts);
    }

    /// Gives the monitor of a slot the state with a number.
    #[inline(always)]
    pub(crate) fn shift<M: Monitor<State = S>>(&mut self, rules: &M, slot: usize, number: u32)
        requires present { (s : Kept S) × (monitor_at (monitors_of self.old.slots) slot ≡ Some s) }
        requires low { number < most_numbers }
        ensures { (s : Kept S) → monitor_at (monitors_of self.old.slots) slot ≡ Some s
            → IsRenumbered (M.HasNumber rules.now) number slot s self.old.slots self.new.slots }
    {
        match &mut self.slots[slot] {
            Slot::Taken(monitor) => rules.renumber(&mut monitor.state, number as u16),
            _ => unreachable!(),
        }
    }

    /// How many monitors there are.
    pub(crate) fn len(&self) -> u64
        ensures { result ≡ length (stored_in (monitors_of self.now.slots)) }
    {
        self.taken as u64
    }

    /// The instances of the monitors, in the order of their slots. Each monitor is one step.
    pub(crate) fn instances<L: Ledger>(
        &self,
        steps: &mut Steps<L>,
    ) -> Result<Vec<Binding>, NoMemory>
        ensures value { IfOk result
            (λ list. list.items ≡ map (λ s. s.instance) (stored_in (monitors_of self.now.slots))) }
        ensures steps { OnOk result (steps.new ≡ steps.old + length (stored_in (monitors_of self.now.slots))) }
    {
        let mut list = Vec::new(*self.slots.allocator());
        for slot in &self.slots {
            if let Slot::Taken(monitor) = slot {
                steps.tick();
                list.push(monitor.instance)?;
            }
        }
        Ok(list)
    }
}

impl<'a, S> Lent<'a, S> {
    /// The monitor of a slot that has one, which is one step.
    #[inline(always)]
    pub(crate) fn monitor<L: Ledger>(&self, slot: usize, steps: &mut Steps<L>) -> &'a Stored<S>
        requires { (s : Kept S) × (monitor_at (monitors_of self.now.items.now) slot ≡ Some s) }
        ensures value { monitor_at (monitors_of self.now.items.now) slot ≡ Some result.now }
        ensures steps { steps.new ≡ steps.old + 1 }
    {
        let Slot::Taken(monitor) = &self.items[slot] else {
            unreachable!();
        };
        steps.tick();
        monitor
    }
}

/// How many monitors a slot has, which is none or one.
fn count_at<S>(slots: &[Slot<S>], slot: usize) -> usize
    requires { slot < length slots.now }
    ensures { result ≡ count_in (slot_at slots.now slot) }
{
    match &slots[slot] {
        Slot::Taken(_) => 1,
        _ => 0,
    }
}

/// Whether a monitor is cut.
fn is_cut<M: Monitor>(rules: &M, objects: &Objects, monitor: &Stored<M::State>) -> bool
    ensures yes { result ≡ true → IsCutState (M.meaning (M.definition rules.now))
        (M.StandsFor rules.now) monitor.now.state (dead_mask_of objects.now monitor.now.instance) }
    ensures no { result ≡ false → IsAliveState (M.meaning (M.definition rules.now))
        (M.StandsFor rules.now) monitor.now.state (dead_mask_of objects.now monitor.now.instance) }
{
    rules.cut(&monitor.state, dead_mask(objects, &monitor.instance))
}

/// Gives each shift's monitor the state with its number.
#[inline(never)]
fn shift_all<M: Monitor>(rules: &M, slots: &mut [Slot<M::State>], shifts: &[Shift])
    requires apart { AllPairs (λ x y. x.slot ≢ y.slot) shifts.now }
    requires present { HaveMonitors shifts.now (monitors_of slots.old) }
    ensures moved { AreShifted (M.HasNumber rules.now) shifts.now (monitors_of slots.old) (monitors_of slots.new) }
    ensures alike { AreAlike slots.old slots.new }
{
    for shift in shifts {
        renumber(rules, slots, shift);
    }
}

/// Carries a shift out.
#[inline(always)]
fn renumber<M: Monitor>(rules: &M, slots: &mut [Slot<M::State>], shift: &Shift)
    requires present { (s : Kept M.State) × (monitor_at (monitors_of slots.old) shift.now.slot ≡ Some s) }
    requires low { shift.now.number < most_numbers }
    ensures at_key { IsShifted (M.HasNumber rules.now) (monitor_at (monitors_of slots.old) shift.now.slot)
        (monitor_at (monitors_of slots.new) shift.now.slot) shift.now.number }
    ensures others { (k : ℕ) → (k ≡ shift.now.slot → ⊥)
        → monitor_at (monitors_of slots.new) k ≡ monitor_at (monitors_of slots.old) k }
    ensures alike { AreAlike slots.old slots.new }
{
    match &mut slots[shift.slot as usize] {
        Slot::Taken(monitor) => rules.renumber(&mut monitor.state, shift.number as u16),
        _ => unreachable!(),
    }
}
