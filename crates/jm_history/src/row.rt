//! A row of entries that take little memory.
ghost use Rattle.std.specs.Prelude.{ℕ, ◌≡◌, ◌+◌, ◌*◌, ◌<◌, ◌≤◌, [], ◌∷◌, ◌++◌, length, drop, slice_get, slice_index_or, Some, IfOk, IfSome, MatchOption, count_ones, vec_len, vec_capacity};
ghost use Rattle.jm_model.specs.Bindings.{objects_of, mask_of};
ghost use Rattle.jm_history.specs.Nodes.{answered};
ghost use Rattle.jm_history.specs.Rows.{placed, short_of, objects_in, IsOfEight, IsShared, outcome_at, Grown, FitsStep, step_of, event_entry, most_places};

use crate::lent::{Lent, LentEvent};
use jm_model::{Binding, Firings, Letter, NoMemory, Outcome, Step};
use std::alloc::Global;
use std::marker::Model;

/// How many objects an event may have.
const MOST: usize = 8;

/// Places in a row are below this.
const PLACES: usize = 0xffff;

/// The numbers of objects and of outcomes for which a row makes room at once.
const OBJECTS: usize = 64;

const OUTCOMES: usize = 16;

/// An entry without what lies elsewhere in its row.
#[derive(Clone, Copy)]
pub(crate) struct Short {
    caller: u32,
    line: u32,
    step: ShortStep,
    outcome: u16,
}

/// A step without its objects, but with the place of the first of them.
#[derive(Clone, Copy)]
pub(crate) enum ShortStep {
    Event {
        letter: Letter,
        mask: u8,
        start: u16,
    },
    Death {
        object: u32,
    },
    Pass,
}

/// Entries, the oldest first. The objects of their events lie one after the other. The first two outcomes are those
/// that most entries have: that no handler ran, and that of a death. There is room for `room` entries more of any kind.
#[derive(Drop)]
pub(crate) struct Row {
    shorts: Vec<Short>,
    objects: Vec<u32>,
    outcomes: Vec<Outcome>,
    room: usize,
}

impl Model for Row {
    ghost use Rattle.std.specs.Prelude.{List};
    ghost use Rattle.jm_model.specs.declared.step.Entry.{Entry};
    ghost use Rattle.jm_history.specs.Rows.{entries_in, IsRow};

    ghost Value = { List Entry };

    ghost view = { λ r. entries_in r.objects.items r.outcomes.items r.shorts.items };

    ghost invariant = { λ r. IsRow r.shorts r.objects r.outcomes r.room };
}

impl Row {
    /// A row without entries, which is full when it has the given number.
    pub(crate) fn new(alloc: Global, entries: usize) -> Result<Row, NoMemory>
        ensures { IfOk result (λ row. row ≡ []) }
    {
        let shorts = Vec::with_capacity(alloc, entries)?;
        let objects = Vec::with_capacity(alloc, entries.saturating_add(MOST))?;
        let mut outcomes = Vec::with_capacity(alloc, OUTCOMES)?;
        outcomes.push(Outcome::Fired(Firings::new(alloc)))?;
        outcomes.push(Outcome::Done)?;
        let room = room(&shorts, &objects, &outcomes);
        Ok(Row {
            shorts,
            objects,
            outcomes,
            room,
        })
    }

    /// How many entries there are.
    pub(crate) fn len(&self) -> usize
        ensures { result ≡ length self.now }
    {
        self.shorts.len()
    }

    /// Whether there is room for an entry more.
    #[inline(always)]
    pub(crate) fn has_room(&self) -> bool {
        self.room > 0
    }

    /// Makes room for entries more, unless the row is full, and if there is memory. It answers whether there is room.
    #[inline(never)]
    pub(crate) fn make_room(&mut self) -> bool
        ensures { self.new ≡ self.old }
    {
        if self.shorts.len() >= self.shorts.capacity() {
            return false;
        }
        make_room(&mut self.objects, MOST, OBJECTS);
        make_room(&mut self.outcomes, 1, OUTCOMES);
        self.room = room(&self.shorts, &self.objects, &self.outcomes);
        self.room > 0
    }

    /// Adds an entry at the end, if there is room. Else the outcome comes back.
    #[inline(always)]
    pub(crate) fn push(
        &mut self,
        caller: u32,
        line: u32,
        step: &Step,
        outcome: Outcome,
    ) -> Option<Outcome>
        ensures { MatchOption result
            (self.new ≡ self.old
            ++ answered (record { caller = caller; line = line; step = step.now }) outcome ∷ [])
            (λ back. (back ≡ outcome) × (self.new ≡ self.old)) }
    {
        if self.room == 0 {
            return Some(outcome);
        }
        self.room -= 1;
        let step = shortened(&mut self.objects, step);
        let outcome = kept(&mut self.outcomes, outcome);
        self.shorts.push_reserved(Short {
            caller,
            line,
            step,
            outcome,
        });
        None
    }

    /// The entry at a place, lent.
    #[inline(always)]
    pub(crate) fn get(&self, i: usize) -> Lent<'_>
        requires { i < length self.now }
        ensures { slice_get self.now i ≡ Some result }
    {
        let short = &self.shorts[i];
        let step = whole(&self.objects, short.step);
        let outcome = &self.outcomes[usize::from(short.outcome)];
        Lent::new(short.caller, short.line, step, outcome)
    }

    /// The entry at a place, if it is an event.
    #[inline(always)]
    pub(crate) fn event(&self, i: usize) -> Option<LentEvent<'_>>
        requires { i < length self.now }
        ensures entry { IfSome result (λ event. slice_get self.now i ≡ Some (event_entry event)) }
        ensures objects { IfSome result (λ event. count_ones event.mask ≤ length event.objects.now) }
    {
        let short = self.shorts[i];
        let outcome = &self.outcomes[usize::from(short.outcome)];
        match short.step {
            ShortStep::Event {
                letter,
                mask,
                start,
            } => Some(LentEvent {
                caller: short.caller,
                line: short.line,
                letter,
                mask,
                objects: &self.objects[usize::from(start)..],
                outcome,
            }),
            _ => None,
        }
    }
}

/// For how many entries more of any kind there is room.
fn room(shorts: &Vec<Short>, objects: &Vec<u32>, outcomes: &Vec<Outcome>) -> usize
    ensures entries { vec_len shorts.now + result ≤ vec_capacity shorts.now }
    ensures objects { vec_len objects.now + 8 * result ≤ vec_capacity objects.now }
    ensures outcomes { vec_len outcomes.now + result ≤ vec_capacity outcomes.now }
    ensures object_places { 0 < result → vec_len objects.now + 8 * result ≤ most_places }
    ensures outcome_places { 0 < result → vec_len outcomes.now + result ≤ most_places }
{
    let entries = shorts.capacity().saturating_sub(shorts.len());
    entries
        .min(objects.capacity().min(PLACES).saturating_sub(objects.len()) / MOST)
        .min(
            outcomes
                .capacity()
                .min(PLACES)
                .saturating_sub(outcomes.len()),
        )
}

/// Makes room for the given number more, or for as many as are wanted then, if there is memory.
fn make_room<T>(items: &mut Vec<T>, least: usize, more: usize)
    ensures { items.new.items ≡ items.old.items }
{
    if items.capacity().saturating_sub(items.len()) < least {
        let _ = items.reserve_exact(more);
    }
}

/// The step without its objects, which are put after the others.
#[inline(always)]
fn shortened(objects: &mut Vec<u32>, step: &Step) -> ShortStep
    requires room { vec_len objects.old + 8 ≤ vec_capacity objects.old }
    requires places { vec_len objects.old < most_places }
    ensures short { result ≡ short_of (length objects.old.items) step.now }
    ensures objects { objects.new.items ≡ objects.old.items ++ objects_in step.now }
    ensures eight { IsOfEight step.now }
    ensures capacity { vec_capacity objects.new ≡ vec_capacity objects.old }
    ensures len { vec_len objects.new ≤ vec_len objects.old + 8 }
{
    match step {
        Step::Event { letter, binding } => {
            let start = objects.len() as u16;
            let mask = binding.mask();
            add_objects(objects, mask, binding);
            ShortStep::Event {
                letter: *letter,
                mask,
                start,
            }
        }
        Step::Death { object } => ShortStep::Death { object: *object },
        Step::Pass => ShortStep::Pass,
    }
}

/// Puts the objects of a binding of this mask after the others.
#[inline(always)]
fn add_objects(objects: &mut Vec<u32>, mask: u8, binding: &Binding)
    requires mask { mask_of binding.now ≡ mask }
    requires room { vec_len objects.old + 8 ≤ vec_capacity objects.old }
    requires eight { length binding.now ≡ 8 }
    ensures objects { objects.new.items ≡ objects.old.items ++ objects_of binding.now }
    ensures capacity { vec_capacity objects.new ≡ vec_capacity objects.old }
    ensures len { vec_len objects.new ≤ vec_len objects.old + 8 }
{
    let mut rest = mask;
    let mut p = 0;
    while rest != 0 {
        if let Some(object) = binding.get(p) {
            objects.push_reserved(object);
        }
        rest /= 2;
        p += 1;
    }
}

/// The place of an outcome, which is put after the others where it isn't one that entries share.
#[inline(always)]
fn kept(outcomes: &mut Vec<Outcome>, outcome: Outcome) -> u16
    requires room { vec_len outcomes.old < vec_capacity outcomes.old }
    requires places { vec_len outcomes.old < most_places }
    requires shared { IsShared outcomes.old.items }
    ensures within { result < length outcomes.new.items }
    ensures outcome { outcome_at outcomes.new.items result ≡ outcome }
    ensures grown { Grown outcomes.old.items outcomes.new.items }
    ensures capacity { vec_capacity outcomes.new ≡ vec_capacity outcomes.old }
    ensures len { vec_len outcomes.new ≤ vec_len outcomes.old + 1 }
{
    match outcome {
        Outcome::Done => 1,
        Outcome::Fired(firings) => {
            if firings.len() == 0 {
                0
            } else {
                added(outcomes, Outcome::Fired(firings))
            }
        }
        other => added(outcomes, other),
    }
}

/// Puts an outcome after the others. It answers its place.
fn added(outcomes: &mut Vec<Outcome>, outcome: Outcome) -> u16
    requires room { vec_len outcomes.old < vec_capacity outcomes.old }
    requires places { vec_len outcomes.old < most_places }
    ensures place { result ≡ length outcomes.old.items }
    ensures outcomes { outcomes.new.items ≡ outcomes.old.items ++ outcome ∷ [] }
    ensures capacity { vec_capacity outcomes.new ≡ vec_capacity outcomes.old }
{
    let place = outcomes.len() as u16;
    outcomes.push_reserved(outcome);
    place
}

/// The step with its objects.
#[inline(always)]
fn whole(objects: &[u32], step: ShortStep) -> Step
    requires { FitsStep (length objects.now) step }
    ensures { result ≡ step_of objects.now step }
{
    match step {
        ShortStep::Event {
            letter,
            mask,
            start,
        } => Step::Event {
            letter,
            binding: binding(objects, mask, usize::from(start)),
        },
        ShortStep::Death { object } => Step::Death { object },
        ShortStep::Pass => Step::Pass,
    }
}

/// The binding of the parameters of a mask to the objects from a place on.
#[inline(always)]
fn binding(objects: &[u32], mask: u8, start: usize) -> Binding
    requires { start + count_ones mask ≤ length objects.now }
    ensures { result ≡ placed mask (drop start objects.now) }
{
    let mut binding = Binding::empty();
    let mut rest = mask;
    let mut next = start;
    let mut p = 0;
    while rest != 0 {
        if rest % 2 == 1 {
            binding = binding.bind(p, objects[next]);
            next += 1;
        }
        rest /= 2;
        p += 1;
    }
    binding
}
