//! Events of which there is a list, done at once: monitors of the list get other states by their numbers, and what
//! becomes of the others is worked out.
ghost use Rattle.std.specs.Prelude.{◌≡◌, ℕ, ◌+◌, ◌<◌, ◌≤◌, ◌↔◌, List, Bool, Contains, IfNone, IfSome, IsTrue, Some, true, false, length, count_by};
ghost use Rattle.std.specs.Int.{bit_at};
ghost use Rattle.jm_model.specs.Bindings.{is_below, is_compatible, mask_of};
ghost use Rattle.jm_index.specs.Index.{AreLive};
ghost use Rattle.jm_monitors.specs.declared.stored.Stored.{Stored as Kept};
ghost use Rattle.jm_store.specs.Slots.{monitor_at};
ghost use Rattle.jm_store.specs.Moves.{ends_all, is_marked, AreNone};
ghost use Rattle.jm_store.specs.Contents.{stored_of, AreReady};
ghost use Rattle.jm_store.specs.Listed.{slots_listed, AreAtRest, AreListed, HasList, KeepListed};
ghost use Rattle.jm_store.specs.Plans.{CanPlan, Advances, IsApplied, IsReading};

use super::Store;
use super::advance::Done;
use crate::event::{Call, Event, ListedEvent, MarkStatus};
use crate::moves::Move;
use crate::report::report;
use crate::walk::{Asked, Shift, Sifted, Walk};
use jm_awake::Awake;
use jm_model::{Binding, Firings, Letter, Monitor, Steps};
use jm_objects::Objects;
use std::mem;
use std::sync::ledger::Ledger;

/// What an event comes to that is done at once: how many shifts there are, and the answer, twice.
#[derive(Drop)]
struct Reading {
    count: usize,
    answer: Firings,
    copy: Firings,
}

impl<M: Monitor> Store<M> {
    /// Does an event at once whose binding is a mark, and of which there is a list, unless out of memory. Where it
    /// doesn't do it, all is as it was. Only monitors of the list are read, each once. Where less than half of them
    /// change, those at rest leave the list.
    #[inline(never)]
    pub fn advance_listed<L: Ledger>(
        &mut self,
        call: &Call<'_, M>,
        awake: &mut Awake,
        place: usize,
        steps: &mut Steps<L>,
    ) -> Option<Done>
        requires can { CanPlan (M.meaning (M.definition call.now.rules.now)) call.now.objects.now call.now.letter.0
            call.now.binding.now self.old }
        requires list { HasList (M.meaning (M.definition call.now.rules.now)) (M.StandsFor call.now.rules.now)
            call.now.objects.now call.now.letter.0 call.now.binding.now self.old.marks self.old.monitors
            awake.old place }
        ensures unchanged { IfNone result ((self.new ≡ self.old) × (awake.new ≡ awake.old)) }
        ensures marks { self.new.marks ≡ self.old.marks }
        ensures advances { Advances (M.meaning (M.definition call.now.rules.now)) (M.StandsFor call.now.rules.now)
            call.now.objects.now call.now.letter.0 call.now.binding.now self.old self.new result }
        ensures listed { AreListed (M.meaning (M.definition call.now.rules.now)) (M.StandsFor call.now.rules.now)
            call.now.objects.now self.new.monitors awake.new }
        ensures steps { steps.new ≤ steps.old + count_by (λ s. is_compatible s.instance call.now.binding.now)
            (stored_of self.old) }
    {
        if awake.entries(place).is_empty() {
            return None;
        }
        let mut sifted = self.take_room();
        let event = Event {
            rules: call.rules,
            objects: call.objects,
            marks: &self.marks,
            letter: call.letter,
            binding: call.binding,
            status: MarkStatus::Marked,
        };
        let listed = ListedEvent { event, place };
        let Some(reading) = self.tell_listed(&listed, awake, &mut sifted, steps) else {
            self.give_room(sifted);
            return None;
        };
        let Reading {
            count,
            answer,
            copy,
        } = reading;
        let Sifted {
            shifts,
            moves,
            rests,
        } = sifted;
        let few = count + moves.len() < awake.entries(place).len() / 2;
        self.monitors
            .shift_all(call.rules, &shifts.as_slice()[..count]);
        self.give_shifts(shifts);
        self.apply(call.rules, awake, moves);
        self.let_rest(call, awake, rests.as_slice(), few);
        self.give_slots(rests);
        Some(Done { answer, copy })
    }

    /// What the event makes of the monitors of its list.
    #[inline(always)]
    fn tell_listed<L: Ledger>(
        &self,
        listed: &ListedEvent<'_, M>,
        awake: &Awake,
        sifted: &mut Sifted<M::State>,
        steps: &mut Steps<L>,
    ) -> Option<Reading>
        requires closed { self.now.is_open ≡ false }
        requires letter { listed.now.event.letter.0 < (M.meaning (M.definition listed.now.event.rules.now)).letters }
        requires known { IsTrue (is_marked listed.now.event.status) ↔ Contains listed.now.event.marks.now.list
            listed.now.event.binding.now }
        requires live { AreLive listed.now.event.objects.now listed.now.event.binding.now }
        requires list { HasList (M.meaning (M.definition listed.now.event.rules.now)) (M.StandsFor
            listed.now.event.rules.now) listed.now.event.objects.now listed.now.event.letter.0
            listed.now.event.binding.now listed.now.event.marks.now.list self.now.monitors awake.now listed.now.place }
        requires none { AreNone sifted.old.moves.items sifted.old.rests.items }
        ensures reading { IfSome result (λ reading. IsReading (M.meaning (M.definition listed.now.event.rules.now))
            (M.StandsFor listed.now.event.rules.now) (M.HasNumber listed.now.event.rules.now) listed.now.event.letter.0
            listed.now.event.objects.now listed.now.event.binding.now listed.now.event.marks.now.list self.now awake.now
            (slots_listed awake.now listed.now.place) sifted.new.shifts.items sifted.new.moves.items
            sifted.new.rests.items reading) }
        ensures steps { steps.new ≤ steps.old + length (slots_listed awake.now listed.now.place) }
    {
        if !has_room(&mut sifted.shifts, awake.entries(listed.place).len()) {
            return None;
        }
        let event = &listed.event;
        let rules = event.rules;
        let walk = Walk {
            slots: self.monitors.lend_all(),
            awake,
            plain: rules.plain(event.letter),
            endings: rules.endings(),
            ending: &self.ending,
            ends: self.ends_above(event.binding),
            event,
        };
        let entries = awake.entries(listed.place);
        let asked = walk.asked();
        let count = if asked.letters == 0 && asked.params == 0 {
            let nothing = Asked {
                letters: 0,
                params: 0,
            };
            walk.read_entries(entries, nothing, sifted, steps)?
        } else {
            walk.read_entries(entries, asked, sifted, steps)?
        };
        let Ok(answer) = report(*self.domains.allocator(), rules, sifted.moves.as_slice()) else {
            return None;
        };
        let Ok(copy) = answer.copy() else {
            return None;
        };
        Some(Reading {
            count,
            answer,
            copy,
        })
    }

    /// Carries out what becomes of monitors of a list.
    #[inline(always)]
    fn apply(&mut self, rules: &M, awake: &mut Awake, mut moves: Vec<Move<M::State>>)
        requires closed { self.old.is_open ≡ false }
        requires ready { AreReady self.old moves.items }
        ensures applied { IsApplied (M.meaning (M.definition rules.now)) (M.StandsFor rules.now) moves.items self.old
            self.new }
        ensures listed { (dead : List Bool) → KeepListed (M.meaning (M.definition rules.now)) (M.StandsFor rules.now)
            dead self.old.monitors self.new.monitors awake.old awake.new }
    {
        self.end_fewer(rules, moves.as_slice());
        self.follow_moves(awake, moves.as_slice());
        while let Some(step) = moves.pop() {
            self.carry_out(step);
        }
        let _monitors = &self.monitors;
        self.give_moves(moves);
    }

    /// Takes slots whose monitors rest at a letter out of the list of an event, where few of the list's monitors
    /// change.
    #[inline(always)]
    fn let_rest(&self, call: &Call<'_, M>, awake: &mut Awake, rests: &[usize], few: bool)
        requires letter { call.now.letter.0 < (M.meaning (M.definition call.now.rules.now)).letters }
        ensures { (dead : List Bool) → AreAtRest (M.meaning (M.definition call.now.rules.now))
            (M.StandsFor call.now.rules.now) call.now.letter.0 call.now.binding.now dead rests.now self.now.monitors →
            KeepListed (M.meaning (M.definition call.now.rules.now)) (M.StandsFor call.now.rules.now) dead
            self.now.monitors self.now.monitors awake.old awake.new }
    {
        if few {
            self.unlist_all(call, awake, rests);
        }
    }

    /// Takes slots whose monitors rest at a letter out of the list of an event, if there is one.
    #[inline(never)]
    fn unlist_all(&self, call: &Call<'_, M>, awake: &mut Awake, rests: &[usize])
        requires letter { call.now.letter.0 < (M.meaning (M.definition call.now.rules.now)).letters }
        ensures { (dead : List Bool) → AreAtRest (M.meaning (M.definition call.now.rules.now))
            (M.StandsFor call.now.rules.now) call.now.letter.0 call.now.binding.now dead rests.now self.now.monitors →
            KeepListed (M.meaning (M.definition call.now.rules.now)) (M.StandsFor call.now.rules.now) dead
            self.now.monitors self.now.monitors awake.old awake.new }
    {
        let _letters = call.rules.letters();
        if let Some(place) = awake.find(call.letter, call.binding) {
            for slot in rests {
                awake.unlist(*slot, call.letter);
            }
            awake.tidy(place);
        }
    }

    /// Takes the room for what an event makes of the monitors of a list.
    fn take_room(&mut self) -> Sifted<M::State>
        ensures unchanged { self.new ≡ self.old }
        ensures none { AreNone result.moves.items result.rests.items }
    {
        let mut rests = self.take_slots();
        rests.clear();
        let moves = self.take_moves();
        let shifts = self.take_shifts();
        Sifted {
            shifts,
            moves,
            rests,
        }
    }

    /// Gives the room back.
    fn give_room(&mut self, sifted: Sifted<M::State>)
        ensures { self.new ≡ self.old }
    {
        let Sifted {
            shifts,
            moves,
            rests,
        } = sifted;
        self.give_shifts(shifts);
        self.give_moves(moves);
        self.give_slots(rests);
    }

    /// Takes the room for shifts.
    fn take_shifts(&mut self) -> Vec<Shift>
        ensures { self.new ≡ self.old }
    {
        let alloc = *self.domains.allocator();
        mem::replace(&mut self.shifts, Vec::new(alloc))
    }

    /// Gives the room for shifts back.
    fn give_shifts(&mut self, shifts: Vec<Shift>)
        ensures { self.new ≡ self.old }
    {
        self.shifts = shifts;
    }

    /// The letters that end all monitors of some set of parameters, of those that have the parameters of a binding.
    fn ends_above(&self, binding: &Binding) -> u32
        requires closed { self.now.is_open ≡ false }
        ensures { (k : ℕ) (s : Kept M.State) → monitor_at self.now.monitors k ≡ Some s
            → is_below binding.now s.instance ≡ true → (e : ℕ)
            → ends_all self.now.ending e (mask_of s.instance) ≡ true → bit_at result e ≡ 1 }
    {
        let mask = binding.mask();
        let mut letters = 0;
        for domain in &self.domains {
            if mask & *domain == mask {
                letters |= self.ending[*domain as usize];
            }
        }
        letters
    }
}

/// Makes a room for the given number of shifts, and answers whether it could; out of memory, it can't.
fn has_room(shifts: &mut Vec<Shift>, count: usize) -> bool
    ensures { result ≡ true → count ≤ length shifts.new.items }
{
    while shifts.len() < count {
        if shifts.push(Shift { slot: 0, number: 0 }).is_err() {
            return false;
        }
    }
    true
}
