//! How new instances get their slots, and how these are taken back.
ghost use Rattle.std.specs.Prelude.{◌≡◌, ◌≢◌, ℕ, AllPairs, List, Bool, [], true, false, Contains, IfOk, OnOk, OnErr, Some, None, length, ◌⊎◌};
ghost use Rattle.jm_index.specs.Index.{Pair, AreBelow, IsFitting};
ghost use Rattle.jm_store.specs.Moves.{LieWithin};
ghost use Rattle.jm_store.specs.Contents.{IsFilled, IsPlaced, IsPlacedNext, ArePlacedOf, ArePaired, AreReady, ArePending, KeepsContents};

use super::Store;
use crate::moves::{Move, have_slots};
use jm_model::{Binding, Monitor, NoMemory};
use std::mem;

impl<M: Monitor> Store<M> {
    /// Opens a plan with these moves: new instances get slots. Out of memory they are taken out again, and no plan is
    /// open.
    pub(super) fn open_plan(
        &mut self,
        moves: Vec<Move<M::State>>,
    ) -> Result<Vec<Move<M::State>>, NoMemory>
        requires closed { self.old.is_open ≡ false }
        requires ready { AreReady self.old moves.items }
        ensures kept { KeepsContents self.old self.new }
        ensures fits { (dead : List Bool) → IsFitting self.old.index dead → LieWithin (length dead) moves.items
            → IsFitting self.new.index dead }
        ensures closed { OnErr result (self.new.is_open ≡ false) }
        ensures opened { OnOk result (self.new.is_open ≡ true) }
        ensures placed { IfOk result (λ placed. ArePlacedOf self.old self.new moves.items moves.items placed.items) }
        ensures housed { OnOk result (ArePaired self.new) }
    {
        self.marks.reserve()?;
        self.is_open = true;
        if have_slots(&moves) {
            let _monitors = &self.monitors;
            return Ok(moves);
        }
        let mut placed = Vec::new(*self.domains.allocator());
        match self.place_all(moves, &mut placed) {
            Ok(()) => {
                let _monitors = &self.monitors;
                Ok(placed)
            }
            Err(NoMemory) => {
                self.take_back(&placed);
                self.is_open = false;
                Err(NoMemory)
            }
        }
    }

    /// Gives each new instance a slot.
    fn place_all(
        &mut self,
        mut moves: Vec<Move<M::State>>,
        placed: &mut Vec<Move<M::State>>,
    ) -> Result<(), NoMemory>
        requires open { self.old.is_open ≡ true }
        requires settled { (pair : Pair) → Contains self.old.index.list pair → IsFilled self.old pair }
        requires ready { AreReady self.old moves.items }
        ensures open { self.new.is_open ≡ true }
        ensures kept { KeepsContents self.old self.new }
        ensures fits { (dead : List Bool) → IsFitting self.old.index dead → LieWithin (length dead) moves.items
            → IsFitting self.new.index dead }
        ensures pending { ArePending self.new placed.new.items }
        ensures placed { OnOk result (ArePlacedOf self.old self.new moves.items moves.items placed.new.items) }
    {
        self.lend_room(placed);
        while let Some(step) = moves.pop() {
            self.place_next(step, placed)?;
        }
        self.keep_room(moves);
        Ok(())
    }

    /// Gives a list the room for moves with slots.
    fn lend_room(&mut self, placed: &mut Vec<Move<M::State>>)
        ensures unchanged { self.new ≡ self.old }
        ensures none { placed.new.items ≡ [] }
    {
        mem::swap(&mut self.placed, placed);
        placed.clear();
    }

    /// Keeps a list's room for the next time.
    fn keep_room(&mut self, moves: Vec<Move<M::State>>)
        ensures { self.new ≡ self.old }
    {
        self.placed = moves;
    }

    /// Puts a move at the end of those that have a slot, if it can get one.
    fn place_next(
        &mut self,
        mut step: Move<M::State>,
        placed: &mut Vec<Move<M::State>>,
    ) -> Result<(), NoMemory>
        requires { self.old.is_open ≡ true }
        ensures open { self.new.is_open ≡ true }
        ensures kept { KeepsContents self.old self.new }
        ensures fits { (dead : List Bool) → IsFitting self.old.index dead → AreBelow (length dead) step.monitor.instance
            → IsFitting self.new.index dead }
        ensures next { OnOk result (IsPlacedNext self.old self.new step placed.old.items placed.new.items) }
        ensures unchanged { OnErr result (self.new.index.list ≡ self.old.index.list) }
        ensures none { OnErr result (placed.new.items ≡ placed.old.items) }
    {
        placed.reserve(1)?;
        if step.slot.is_none() {
            step.slot = self.place(&step.monitor.instance)?;
        }
        placed.push_reserved(step);
        Ok(())
    }

    /// A planned slot for an instance, unless the index has the instance already.
    pub(super) fn place(&mut self, instance: &Binding) -> Result<Option<usize>, NoMemory>
        requires open { self.old.is_open ≡ true }
        ensures open { self.new.is_open ≡ true }
        ensures kept { KeepsContents self.old self.new }
        ensures fits { (dead : List Bool) → IsFitting self.old.index dead → AreBelow (length dead) instance.now
            → IsFitting self.new.index dead }
        ensures placed { IfOk result (λ slot. IsPlaced self.old self.new instance.now slot) }
        ensures unchanged { OnErr result (self.new.index.list ≡ self.old.index.list) }
    {
        if self.index.has(instance) {
            return Ok(None);
        }
        Self::list_domain(&mut self.domains, instance.mask())?;
        let slot = self.monitors.reserve()?;
        match self.index.add(*instance, slot) {
            Ok(()) => Ok(Some(slot)),
            Err(NoMemory) => {
                self.monitors.release(slot);
                Err(NoMemory)
            }
        }
    }

    /// Adds a set of parameters to the list, where it isn't there.
    fn list_domain(domains: &mut Vec<u8>, domain: u8) -> Result<(), NoMemory>
        requires { AllPairs (λ a b. a ≢ b) domains.old.items }
        ensures distinct { AllPairs (λ a b. a ≢ b) domains.new.items }
        ensures kept { (d : ℕ) → Contains domains.old.items d → Contains domains.new.items d }
        ensures listed { OnOk result (Contains domains.new.items domain) }
    {
        if !domains.contains(&domain) {
            domains.push(domain)?;
        }
        Ok(())
    }

    /// Takes planned instances out again.
    fn take_back(&mut self, moves: &[Move<M::State>])
        requires open { self.old.is_open ≡ true }
        requires pending { ArePending self.old moves.now }
        ensures open { self.new.is_open ≡ true }
        ensures kept { KeepsContents self.old self.new }
        ensures fits { (dead : List Bool) → IsFitting self.old.index dead → IsFitting self.new.index dead }
        ensures filled { (pair : Pair) → Contains self.new.index.list pair → IsFilled self.new pair }
    {
        let _monitors = &self.monitors;
        for step in moves {
            if let Some(slot) = step.slot {
                self.free(slot, &step.monitor.instance);
            }
        }
    }

    /// Frees a slot, if it is planned.
    fn free(&mut self, slot: usize, instance: &Binding)
        requires open { self.old.is_open ≡ true }
        requires paired { (pair : Pair) → Contains self.old.index.list pair → pair.slot ≡ slot
            → pair.binding ≡ instance.now }
        requires bound { (pair : Pair) → Contains self.old.index.list pair → pair.binding ≡ instance.now
            → pair.slot ≡ slot }
        ensures open { self.new.is_open ≡ true }
        ensures kept { KeepsContents self.old self.new }
        ensures fits { (dead : List Bool) → IsFitting self.old.index dead → IsFitting self.new.index dead }
        ensures within { (pair : Pair) → Contains self.new.index.list pair → Contains self.old.index.list pair }
        ensures gone { (pair : Pair) → Contains self.new.index.list pair → pair.slot ≡ slot → IsFilled self.new pair }
    {
        if self.monitors.is_planned(slot) {
            self.index.remove(instance);
            self.monitors.release(slot);
        }
    }
}
