//! An event that moves the monitor of a slot. Where the number of its state tells what becomes of the monitor, nothing
//! else is worked out.
ghost use Rattle.std.specs.Prelude.{◌≡◌, ◌+◌, ◌<◌, ◌≤◌, ℕ, IfNone, IfSome, Some, [], false, slice_get, IsBitSet};
ghost use Rattle.jm_monitors.specs.declared.stored.Stored.{Stored as Kept};
ghost use Rattle.jm_store.specs.Slots.{monitor_at};
ghost use Rattle.jm_store.specs.Contents.{StaysClosed};
ghost use Rattle.jm_store.specs.Listed.{KeepListed};
ghost use Rattle.jm_store.specs.Plans.{IsSlotDone};
ghost use Rattle.jm_store.specs.Walks.{IsPlainFor, IsRestingAlone, IsToldAlone};

use super::Store;
use super::advance::Done;
use crate::ending::end_fewer;
use crate::event::Call;
use crate::report::report_one;
use crate::waking::wake;
use crate::walk::{Told, number_at};
use jm_awake::Awake;
use jm_marks::dead_mask;
use jm_model::{AT_REST, Monitor, NO_NUMBER, Steps};
use jm_monitors::Stored;
use std::sync::ledger::Ledger;

impl<M: Monitor> Store<M> {
    /// Moves the monitor of a slot, if there is one, unless out of memory.
    pub(super) fn advance_slot<L: Ledger>(
        &mut self,
        call: &Call<'_, M>,
        awake: &mut Awake,
        slot: usize,
        steps: &mut Steps<L>,
    ) -> Option<Done>
        requires closed { self.old.is_open ≡ false }
        requires letter { call.now.letter.0 < (M.meaning (M.definition call.now.rules.now)).letters }
        ensures unchanged { IfNone result (self.new ≡ self.old) }
        ensures stays { StaysClosed self.old self.new }
        ensures done { IfSome result (IsSlotDone (M.meaning (M.definition call.now.rules.now))
            (M.StandsFor call.now.rules.now) call.now.letter.0 call.now.objects.now slot self.old self.new) }
        ensures listed { KeepListed (M.meaning (M.definition call.now.rules.now)) (M.StandsFor call.now.rules.now)
            call.now.objects.now self.old.monitors self.new.monitors awake.old awake.new }
        ensures steps { steps.new ≤ steps.old + 1 }
    {
        let base = self.monitors.lend(slot, steps)?;
        match tell_alone(call, base) {
            Told::Shifts(number) => Some(self.shift_slot(call, awake, slot, number)),
            Told::Rests => Some(self.rest_slot(call, slot)),
            Told::Nothing => self.move_slot(call, awake, slot),
        }
    }

    /// Gives the monitor of a slot the state with a number, where this is all that the event makes of it.
    fn shift_slot(
        &mut self,
        call: &Call<'_, M>,
        awake: &mut Awake,
        slot: usize,
        number: u32,
    ) -> Done
        requires closed { self.old.is_open ≡ false }
        requires plain { (base : Kept M.State) × (monitor_at self.old.monitors slot ≡ Some base)
            × IsPlainFor (M.meaning (M.definition call.now.rules.now)) (M.StandsFor call.now.rules.now)
            (M.HasNumber call.now.rules.now) call.now.letter.0 call.now.objects.now base number }
        ensures stays { StaysClosed self.old self.new }
        ensures done { IsSlotDone (M.meaning (M.definition call.now.rules.now)) (M.StandsFor call.now.rules.now)
            call.now.letter.0 call.now.objects.now slot self.old self.new result }
        ensures listed { KeepListed (M.meaning (M.definition call.now.rules.now)) (M.StandsFor call.now.rules.now)
            call.now.objects.now self.old.monitors self.new.monitors awake.old awake.new }
    {
        let Some(base) = self.monitors.peek(slot) else {
            unreachable!();
        };
        let instance = base.instance;
        let letters = letters_at(call.rules.endings(), number);
        end_fewer(&mut self.ending, instance.mask(), letters);
        wake(awake, slot, &instance);
        self.monitors.shift(call.rules, slot, number);
        Done::nothing(*self.domains.allocator())
    }

    /// Leaves the monitor of a slot as it is, where it rests.
    fn rest_slot(&mut self, call: &Call<'_, M>, slot: usize) -> Done
        requires closed { self.old.is_open ≡ false }
        requires resting { (base : Kept M.State) × (monitor_at self.old.monitors slot ≡ Some base)
            × IsRestingAlone (M.meaning (M.definition call.now.rules.now)) (M.StandsFor call.now.rules.now)
            call.now.letter.0 call.now.objects.now base }
        ensures stays { StaysClosed self.old self.new }
        ensures monitors { self.new.monitors ≡ self.old.monitors }
        ensures done { IsSlotDone (M.meaning (M.definition call.now.rules.now)) (M.StandsFor call.now.rules.now)
            call.now.letter.0 call.now.objects.now slot self.old self.new result }
    {
        let Some(base) = self.monitors.peek(slot) else {
            unreachable!();
        };
        let letters = call.rules.ending(&base.state);
        end_fewer(&mut self.ending, base.instance.mask(), letters);
        Done::nothing(*self.domains.allocator())
    }

    /// Moves the monitor of a slot, if there is one, unless out of memory: its next state is worked out.
    fn move_slot(&mut self, call: &Call<'_, M>, awake: &mut Awake, slot: usize) -> Option<Done>
        requires closed { self.old.is_open ≡ false }
        requires letter { call.now.letter.0 < (M.meaning (M.definition call.now.rules.now)).letters }
        ensures unchanged { IfNone result (self.new ≡ self.old) }
        ensures stays { StaysClosed self.old self.new }
        ensures done { IfSome result (IsSlotDone (M.meaning (M.definition call.now.rules.now))
            (M.StandsFor call.now.rules.now) call.now.letter.0 call.now.objects.now slot self.old self.new) }
        ensures listed { KeepListed (M.meaning (M.definition call.now.rules.now)) (M.StandsFor call.now.rules.now)
            call.now.objects.now self.old.monitors self.new.monitors awake.old awake.new }
    {
        let base = self.monitors.peek(slot)?;
        let Ok(state) = call.rules.next(&base.state, call.letter) else {
            return None;
        };
        let Ok(answer) = report_one(
            *self.domains.allocator(),
            call.rules,
            &base.instance,
            &state,
        ) else {
            return None;
        };
        let Ok(copy) = answer.copy() else {
            return None;
        };
        let stays = !call
            .rules
            .cut(&state, dead_mask(call.objects, &base.instance));
        end_fewer(
            &mut self.ending,
            base.instance.mask(),
            call.rules.ending(&state),
        );
        let instance = base.instance;
        if stays {
            wake(awake, slot, &instance);
            self.monitors.put(slot, Stored { instance, state });
        } else {
            awake.leave(slot);
            self.index.remove(&instance);
            self.monitors.release(slot);
        }
        Some(Done { answer, copy })
    }
}

/// What the number of a monitor's state tells of an event that moves the monitor.
#[inline(always)]
fn tell_alone<M: Monitor>(call: &Call<'_, M>, base: &Stored<M::State>) -> Told
    requires { call.now.letter.0 < (M.meaning (M.definition call.now.rules.now)).letters }
    ensures { IsToldAlone (M.meaning (M.definition call.now.rules.now)) (M.StandsFor call.now.rules.now)
        (M.HasNumber call.now.rules.now) call.now.letter.0 call.now.objects.now base.now result }
{
    let Some(number) = call.rules.number(&base.state) else {
        return Told::Nothing;
    };
    let next = number_at(call.rules.plain(call.letter), number);
    if next == NO_NUMBER || dead_mask(call.objects, &base.instance) != 0 {
        return Told::Nothing;
    }
    if next == AT_REST {
        Told::Rests
    } else {
        Told::Shifts(next as u32)
    }
}

/// The letters that a row has at a number: none where it has no entry.
#[inline(always)]
fn letters_at(row: &[u32], number: u32) -> u32
    ensures { (e : ℕ) → IsBitSet result e → slice_get row.now number ≡ Some result }
{
    match row.get(number as usize) {
        Some(letters) => *letters,
        None => 0,
    }
}
