//! How the monitors of a list are read. Where a number tells what the event makes of a monitor, it gets another state,
//! or rests; what becomes of the others is worked out.
ghost use Rattle.std.specs.Prelude.{◌≡◌, ◌≢◌, ℕ, ◌+◌, ◌/◌, ◌%◌, ◌==◌, ◌<◌, ◌≤◌, ◌↔◌, ◌⊎◌, ◌∷◌, ◌++◌, [], List, Contains, OnOk, IsTrue, Some, true};
ghost use Rattle.std.specs.Prelude.{false, IfSome, length, slice_get, slice_index_or, take};
ghost use Rattle.std.specs.Int.{bit_at};
ghost use Rattle.jm_model.specs.Bindings.{is_below, mask_of, object_at};
ghost use Rattle.jm_model.specs.Numbers.{no_number, at_rest};
ghost use Rattle.jm_awake.specs.Awake.{fresh, slots_there, IsOn};
ghost use Rattle.jm_index.specs.Index.{AreLive};
ghost use Rattle.jm_marks.specs.Marks.{dead_mask_of, is_dead_object};
ghost use Rattle.jm_store.specs.Slots.{monitors_of, monitor_at};
ghost use Rattle.jm_store.specs.Moves.{is_marked, AreNone, AreSifted, IsPushed, IsReadAt};
ghost use Rattle.jm_store.specs.Walks.{AreRows, AreAliveBut, EndsAll, IsShiftAt, no_turn, AreTurns, EndsLike};
ghost use Rattle.jm_store.specs.Walks.{most_numbers, AreAmong, AreReadable, AsksAll, CanWalk, IsToldByNumber};
ghost use Rattle.jm_store.specs.declared.walk.Told.TheVariants.{Shifts, Nothing};

use crate::event::Event;
use crate::monitors::Lent;
use crate::moves::Move;
use jm_awake::{Awake, Card, Listed};
use jm_model::{AT_REST, Binding, Monitor, NO_NUMBER, NoMemory, Steps};
use jm_monitors::Stored;
use jm_objects::Objects;
use std::sync::ledger::Ledger;

/// What becomes of a monitor of a list: its state gets another number, and nothing else changes.
#[derive(Clone, Copy)]
pub(crate) struct Shift {
    pub(crate) slot: u32,
    pub(crate) number: u32,
}

/// The number of a state that the event moves, and that of the state to which it leads; above all numbers where none is
/// known yet.
#[derive(Clone, Copy)]
pub(crate) struct Turn {
    pub(crate) from: u32,
    pub(crate) to: u32,
}

/// What the number of a monitor's state tells of what the event makes of the monitor.
#[derive(Clone, Copy)]
pub(crate) enum Told {
    /// The number of another state, and nothing else changes.
    Shifts(u32),
    /// It rests.
    Rests,
    /// Nothing, or not all of it.
    Nothing,
}

/// What is asked of a monitor that gets a shift: of which letters its slot has to be in the lists, beside that of the
/// event, and at which parameters its objects have to be alive.
#[derive(Clone, Copy)]
pub(crate) struct Asked {
    pub(crate) letters: u32,
    pub(crate) params: u8,
}

/// Room for what an event makes of the monitors of a list, sorted in three: shifts, which stand in front, moves, and
/// the slots of those that rest.
#[derive(Drop)]
pub(crate) struct Sifted<S> {
    pub(crate) shifts: Vec<Shift>,
    pub(crate) moves: Vec<Move<S>>,
    pub(crate) rests: Vec<usize>,
}

/// An event that reads the monitors of its list, and what it looks up.
#[derive(Drop)]
pub(crate) struct Walk<'a, M: Monitor> {
    pub(crate) event: &'a Event<'a, M>,
    pub(crate) slots: Lent<'a, M::State>,
    pub(crate) awake: &'a Awake,
    /// By the number of a state what the letter makes of it, and which letters end an instance of it.
    pub(crate) plain: &'a [u16],
    pub(crate) endings: &'a [u32],
    /// For each set of parameters letters that end all monitors with it, which have to end those that the event moves.
    pub(crate) ending: &'a [u32; 256],
    /// Those of all sets that have the parameters of the binding.
    pub(crate) ends: u32,
}

impl Turn {
    /// Whether it is noted of the state with a number.
    #[inline(always)]
    fn is_from(&self, number: u16) -> bool
        ensures from { result ≡ true → self.now.from ≡ number }
        ensures low { number < most_numbers }
    {
        self.from == number as u32
    }
}

impl<M: Monitor> Walk<'_, M> {
    /// What is asked of monitors above the event's binding that get shifts: nothing where no other letter has a list,
    /// and no object is dead.
    #[inline(always)]
    pub(crate) fn asked(&self) -> Asked
        requires low { self.now.event.now.letter.0 < (M.meaning (M.definition self.now.event.now.rules.now)).letters }
        requires live { AreLive self.now.event.now.objects.now self.now.event.now.binding.now }
        ensures { AsksAll self.now.event.now.objects.now self.now.event.now.binding.now self.now.event.now.letter.0
            self.now.awake.now.letters result }
    {
        let _letters = self.event.rules.letters();
        let letters = self.awake.letters_but(self.event.letter);
        let params = self.free_params();
        Asked { letters, params }
    }

    /// Reads entries of a list. The monitors of which their numbers tell what becomes of them get shifts, at the front
    /// of these, or are noted as resting, and the others get moves. Answers how many shifts there are, unless out of
    /// memory. It is inlined, so that zeros which stand at the call make a loop that asks for nothing of the kind.
    #[inline(always)]
    pub(crate) fn read_entries<L: Ledger>(
        &self,
        entries: &[Listed],
        asked: Asked,
        sifted: &mut Sifted<M::State>,
        steps: &mut Steps<L>,
    ) -> Option<usize>
        requires can { CanWalk (M.meaning (M.definition self.now.event.now.rules.now)) (M.StandsFor
            self.now.event.now.rules.now) (M.HasNumber self.now.event.now.rules.now) self.now.event.now.letter.0
            self.now.plain.now self.now.endings.now (is_marked self.now.event.now.status)
            self.now.event.now.marks.now.list
            self.now.event.now.binding.now }
        requires asks { AsksAll self.now.event.now.objects.now self.now.event.now.binding.now
            self.now.event.now.letter.0 self.now.awake.now.letters asked }
        requires each { AreReadable self.now.event.now.binding.now self.now.event.now.letter.0 self.now.ending.now
            self.now.ends self.now.awake.now (monitors_of self.now.slots.items.now) entries.now }
        requires room { length entries.now ≤ length sifted.old.shifts.items }
        requires none { AreNone sifted.old.moves.items sifted.old.rests.items }
        ensures sifted { IfSome result (λ count. (count ≤ length sifted.new.shifts.items) × AreSifted (IsShiftAt
            (M.meaning (M.definition self.now.event.now.rules.now)) (M.StandsFor self.now.event.now.rules.now)
            (M.HasNumber self.now.event.now.rules.now) self.now.event.now.letter.0 self.now.event.now.objects.now
            self.now.event.now.binding.now self.now.ending.now self.now.awake.now (monitors_of
            self.now.slots.items.now)) (IsReadAt (M.meaning (M.definition self.now.event.now.rules.now)) (M.StandsFor
            self.now.event.now.rules.now) self.now.event.now.letter.0 self.now.event.now.binding.now
            self.now.event.now.objects.now self.now.event.now.marks.now.list (monitors_of self.now.slots.items.now))
            (slots_there self.now.awake.now.cards entries.now) (take count sifted.new.shifts.items)
            sifted.new.moves.items sifted.new.rests.items) }
        ensures length { length sifted.new.shifts.items ≡ length sifted.old.shifts.items }
        ensures steps { steps.new ≤ steps.old + length (slots_there self.now.awake.now.cards entries.now) }
    {
        let cards = self.awake.cards();
        let mut turns = [Turn {
            from: u32::MAX,
            to: NO_NUMBER as u32,
        }; 16];
        let shifts = sifted.shifts.as_mut_slice();
        let mut count = 0;
        for entry in entries {
            let card = card_of(cards, entry.slot());
            if is_there(card, entry) {
                let base = self.slots.monitor(entry.slot(), steps);
                match self.tell(base, card, asked, &mut turns) {
                    Told::Shifts(number) => {
                        push_shift(shifts, &mut count, entry.slot_number(), number);
                    }
                    Told::Rests => note_rest(&mut sifted.rests, entry.slot()),
                    Told::Nothing => {
                        let Ok(()) = self.work_out(entry.slot(), base, &mut sifted.moves) else {
                            return None;
                        };
                    }
                }
            }
        }
        Some(count)
    }

    /// The parameters to which an instance above the event's binding may give a dead object: none where no object is
    /// dead at all, and else those that the event doesn't bind.
    fn free_params(&self) -> u8
        requires { AreLive self.now.event.now.objects.now self.now.event.now.binding.now }
        ensures { AreAliveBut self.now.event.now.objects.now self.now.event.now.binding.now result }
    {
        if self.event.objects.any_dead() {
            !self.event.binding.mask()
        } else {
            0
        }
    }

    /// What the number of a monitor's state tells. A state's move is looked up once, and again where one whose number
    /// leaves the same remainder by 16 came between.
    #[inline(always)]
    fn tell(
        &self,
        base: &Stored<M::State>,
        card: &Card,
        asked: Asked,
        turns: &mut [Turn; 16],
    ) -> Told
        requires rows { AreRows (M.meaning (M.definition self.now.event.now.rules.now)) (M.StandsFor
            self.now.event.now.rules.now) (M.HasNumber self.now.event.now.rules.now) self.now.event.now.letter.0
            self.now.plain.now self.now.endings.now }
        requires free { AreAliveBut self.now.event.now.objects.now self.now.event.now.binding.now asked.params }
        requires below { is_below self.now.event.now.binding.now base.now.instance ≡ true }
        requires among { AreAmong self.now.ending.now (mask_of base.now.instance) self.now.ends }
        requires turns { AreTurns self.now.plain.now self.now.ends self.now.endings.now turns.old }
        ensures turns { AreTurns self.now.plain.now self.now.ends self.now.endings.now turns.new }
        ensures told { IsToldByNumber (M.meaning (M.definition self.now.event.now.rules.now)) (M.StandsFor
            self.now.event.now.rules.now) (M.HasNumber self.now.event.now.rules.now) self.now.event.now.letter.0
            self.now.event.now.objects.now self.now.event.now.binding.now self.now.ending.now asked.letters card.now
            base.now result }
    {
        let Some(number) = self.event.rules.number(&base.state) else {
            return Told::Nothing;
        };
        if !self.is_whole(&base.instance, asked.params) {
            return Told::Nothing;
        }
        let turn = turn_of(turns, number);
        if turn.is_from(number) {
            return shifts_on(card, asked.letters, turn.to);
        }
        if number_at(self.plain, number) == AT_REST {
            return Told::Rests;
        }
        let next = self.look_up(number, &base.instance, turns);
        if next >= AT_REST {
            return Told::Nothing;
        }
        shifts_on(card, asked.letters, next as u32)
    }

    /// What the row has at the number of a state, if the letters that end all monitors with the parameters of an
    /// instance end the states with that number. It is noted where the instance doesn't matter.
    #[inline(never)]
    fn look_up(&self, number: u16, instance: &Binding, turns: &mut [Turn; 16]) -> u16
        requires turns { AreTurns self.now.plain.now self.now.ends self.now.endings.now turns.old }
        requires among { AreAmong self.now.ending.now (mask_of instance.now) self.now.ends }
        ensures turns { AreTurns self.now.plain.now self.now.ends self.now.endings.now turns.new }
        ensures at { result ≢ no_number → slice_get self.now.plain.now number ≡ Some result }
        ensures over { result ≢ no_number → result ≢ at_rest
            → EndsLike self.now.ending.now (mask_of instance.now) self.now.endings.now result }
    {
        let next = number_at(self.plain, number);
        if next >= AT_REST {
            return next;
        }
        if end_all(self.ends, self.endings, next) {
            note_turn(turns, number, next);
            return next;
        }
        if end_all(self.ending[instance.mask() as usize], self.endings, next) {
            next
        } else {
            NO_NUMBER
        }
    }

    /// Works out what the event makes of the monitor of a slot, and adds it to the moves.
    #[cold]
    #[inline(never)]
    fn work_out(
        &self,
        slot: usize,
        base: &Stored<M::State>,
        moves: &mut Vec<Move<M::State>>,
    ) -> Result<(), NoMemory>
        requires low { self.now.event.now.letter.0 < (M.meaning (M.definition self.now.event.now.rules.now)).letters }
        requires known { IsTrue (is_marked self.now.event.now.status)
            ↔ Contains self.now.event.now.marks.now.list self.now.event.now.binding.now }
        requires below { is_below self.now.event.now.binding.now base.now.instance ≡ true }
        requires at_key { monitor_at (monitors_of self.now.slots.items.now) slot ≡ Some base.now }
        ensures { OnOk result (IsPushed (IsReadAt (M.meaning (M.definition self.now.event.now.rules.now)) (M.StandsFor
            self.now.event.now.rules.now) self.now.event.now.letter.0 self.now.event.now.binding.now
            self.now.event.now.objects.now self.now.event.now.marks.now.list (monitors_of self.now.slots.items.now))
            slot moves.old.items moves.new.items) }
    {
        if let Some(step) = self.event.outcome(slot, base)? {
            moves.push(step)?;
        }
        Ok(())
    }

    /// Whether nothing is dead of an instance above the event's binding.
    #[inline(always)]
    fn is_whole(&self, instance: &Binding, free: u8) -> bool
        requires free { AreAliveBut self.now.event.now.objects.now self.now.event.now.binding.now free }
        requires below { is_below self.now.event.now.binding.now instance.now ≡ true }
        ensures { result ≡ true → dead_mask_of self.now.event.now.objects.now instance.now ≡ 0 }
    {
        let mask = instance.mask();
        if free == 0 {
            return true;
        }
        !binds_dead(self.event.objects, instance, mask & free)
    }
}

/// The card of a slot.
#[inline(always)]
fn card_of(cards: &[Card], slot: usize) -> &Card
    requires { slot < length cards.now }
    ensures { result.now ≡ slice_index_or cards.now slot fresh }
{
    &cards[slot]
}

/// Whether an entry still counts, by the card of its slot.
#[inline(always)]
fn is_there(card: &Card, entry: &Listed) -> bool
    ensures { result ≡ (card.now.age / 2 == entry.now.age / 2) }
{
    card.is_whole(entry) || still_counts(card, entry)
}

/// Whether an entry still counts though its age isn't that of the card.
#[inline(never)]
fn still_counts(card: &Card, entry: &Listed) -> bool
    ensures { result ≡ (card.now.age / 2 == entry.now.age / 2) }
{
    card.is_there(entry)
}

/// The move that was noted last of those whose numbers leave what this one leaves when divided by 16.
#[inline(always)]
fn turn_of(turns: &[Turn; 16], number: u16) -> Turn
    ensures { result ≡ slice_index_or turns.now (number % 16) no_turn }
{
    turns[number as usize % 16]
}

/// Notes a move.
#[inline(always)]
fn note_turn(turns: &mut [Turn; 16], from: u16, to: u16)
    ensures at_key { slice_index_or turns.new (from % 16) no_turn ≡ record { from = from; to = to } }
    ensures others { (k : ℕ) → (k ≡ from % 16 → ⊥) → slice_index_or turns.new k no_turn
        ≡ slice_index_or turns.old k no_turn }
{
    turns[from as usize % 16] = Turn {
        from: from as u32,
        to: to as u32,
    };
}

/// That a monitor shifts to the state with a number, if the slot with this card is in the lists of all these letters.
#[inline(always)]
fn shifts_on(card: &Card, letters: u32, number: u32) -> Told
    ensures told { (result ≡ Nothing) ⊎ (result ≡ Shifts number) }
    ensures on { result ≢ Nothing → (e : ℕ) → bit_at letters e ≡ 1 → IsOn card.now e }
{
    if card.missing(letters) != 0 {
        return Told::Nothing;
    }
    Told::Shifts(number)
}

/// Notes the slot of a monitor that rests, if there is memory for it.
#[inline(always)]
fn note_rest(rests: &mut Vec<usize>, slot: usize)
    ensures { (rests.new.items ≡ rests.old.items) ⊎ (rests.new.items ≡ rests.old.items ++ slot ∷ []) }
{
    let _room = rests.push(slot);
}

/// Writes a shift after those that there are.
#[inline(always)]
fn push_shift(shifts: &mut [Shift], count: &mut usize, slot: u32, number: u32)
    requires { count.old < length shifts.old }
    ensures added { take count.new shifts.new
        ≡ take count.old shifts.old ++ record { slot = slot; number = number } ∷ [] }
    ensures count { count.new ≡ count.old + 1 }
    ensures length { length shifts.new ≡ length shifts.old }
{
    shifts[*count] = Shift { slot, number };
    *count += 1;
}

/// What a row has at a number.
#[inline(always)]
pub(crate) fn number_at(row: &[u16], number: u16) -> u16
    ensures { result ≢ no_number → slice_get row.now number ≡ Some result }
{
    match row.get(number as usize) {
        Some(next) => *next,
        None => NO_NUMBER,
    }
}

/// Whether all letters of a set end the states with a number, by a row.
#[inline(always)]
fn end_all(letters: u32, row: &[u32], number: u16) -> bool
    ensures { result ≡ true → EndsAll letters row.now number }
{
    if letters == 0 {
        return true;
    }
    match row.get(number as usize) {
        Some(own) => is_within(letters, *own),
        None => false,
    }
}

/// Whether each letter of a set is in another.
#[inline(always)]
fn is_within(letters: u32, others: u32) -> bool
    ensures { result ≡ true → (e : ℕ) → bit_at letters e ≡ 1 → bit_at others e ≡ 1 }
{
    letters & !others == 0
}

/// Whether a binding has a dead object at a parameter of a set.
#[inline(always)]
fn binds_dead(objects: &Objects, binding: &Binding, params: u8) -> bool
    ensures { result ≡ false → (p o : ℕ) → bit_at params p ≡ 1 → object_at binding.now p ≡ Some o
        → is_dead_object objects.now o ≡ false }
{
    let mut left = params as u32;
    while left > 0 {
        let p = left.trailing_zeros();
        if is_dead_at(objects, binding, p as u8) {
            return true;
        }
        left = without(left, p);
    }
    false
}

/// Whether a binding has a dead object at a parameter.
#[inline(always)]
fn is_dead_at(objects: &Objects, binding: &Binding, p: u8) -> bool
    requires { p < 8 }
    ensures { result ≡ false → (o : ℕ) → object_at binding.now p ≡ Some o → is_dead_object objects.now o ≡ false }
{
    match binding.get(p) {
        Some(object) => is_dead_in(objects, object),
        None => false,
    }
}

/// Whether an object is dead. One that isn't in the table counts as alive.
#[inline(always)]
fn is_dead_in(objects: &Objects, object: u32) -> bool
    ensures { result ≡ false → is_dead_object objects.now object ≡ false }
{
    match objects.words().get(object as usize / 64) {
        Some(word) => (*word >> (object % 64)) % 2 == 1,
        None => false,
    }
}

/// A set of parameters without one.
#[inline(always)]
fn without(params: u32, p: u32) -> u32
    requires { p < 32 }
    ensures back { (q : ℕ) → bit_at result q ≡ 1 → (bit_at params q ≡ 1) × (q ≡ p → ⊥) }
    ensures kept { (q : ℕ) → (q ≡ p → ⊥) → bit_at params q ≡ 1 → bit_at result q ≡ 1 }
    ensures fewer { bit_at params p ≡ 1 → result < params }
{
    params & !(1 << p)
}
