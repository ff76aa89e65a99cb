//! Entries that are lent.
ghost use Rattle.std.specs.Prelude.{◌≡◌, ◌<◌, ◌≤◌, [], ◌∷◌, length, slice_get, Some, IfOk, IfSome, count_ones};
ghost use Rattle.jm_history.specs.Rows.{event_entry};

use crate::row::Row;
use jm_model::{Entry, Letter, NoMemory, Outcome, Step};
use std::marker::Model;

/// An event of a row, of which the objects and the outcome are lent and not copied: who made it, at which line of its
/// script, and its letter, with the set of its parameters and their objects, one after the other. Objects of later
/// events may follow.
#[derive(Clone, Copy)]
pub struct LentEvent<'a> {
    pub caller: u32,
    pub line: u32,
    pub letter: Letter,
    pub mask: u8,
    pub objects: &'a [u32],
    pub outcome: &'a Outcome,
}

/// An entry of a history, of which the outcome is lent and not copied.
#[derive(Drop)]
pub struct Lent<'a> {
    caller: u32,
    line: u32,
    step: Step,
    outcome: &'a Outcome,
}

impl<'a> Model for Lent<'a> {
    ghost use Rattle.jm_model.specs.declared.step.Entry.{Entry};

    ghost Value = { Entry };

    ghost view = { λ e. record { caller = e.caller; line = e.line; step = e.step; outcome = e.outcome.now } };
}

impl<'a> Lent<'a> {
    #[inline(always)]
    pub(crate) fn new(caller: u32, line: u32, step: Step, outcome: &'a Outcome) -> Lent<'a>
        ensures { result ≡ record { caller = caller; line = line; step = step; outcome = outcome.now } }
    {
        Lent {
            caller,
            line,
            step,
            outcome,
        }
    }

    /// An entry, lent.
    #[inline(always)]
    pub fn of(entry: &'a Entry) -> Lent<'a>
        ensures { result ≡ entry.now }
    {
        Lent {
            caller: entry.caller,
            line: entry.line,
            step: entry.step,
            outcome: &entry.outcome,
        }
    }

    /// Who made the step.
    pub fn caller(&self) -> u32
        ensures { result ≡ self.now.caller }
    {
        self.caller
    }

    /// The line of its script.
    pub fn line(&self) -> u32
        ensures { result ≡ self.now.line }
    {
        self.line
    }

    /// The step.
    pub fn step(&self) -> &Step
        ensures { result.now ≡ self.now.step }
    {
        &self.step
    }

    /// What the step was answered.
    pub fn outcome(&self) -> &Outcome
        ensures { result.now ≡ self.now.outcome }
    {
        self.outcome
    }

    /// A copy of the entry.
    pub fn copy(&self) -> Result<Entry, NoMemory>
        ensures { IfOk result (λ entry. entry ≡ self.now) }
    {
        Ok(Entry {
            caller: self.caller,
            line: self.line,
            step: self.step,
            outcome: self.outcome.copy()?,
        })
    }
}

/// Neighbours of a history, the oldest first.
#[derive(Drop)]
pub struct Piece<'a> {
    part: Part<'a>,
}

#[derive(Drop)]
pub(crate) enum Part<'a> {
    Row(&'a Row),
    One(&'a Entry),
}

impl<'a> Model for Piece<'a> {
    ghost use Rattle.std.specs.Prelude.{List};
    ghost use Rattle.jm_model.specs.declared.step.Entry.{Entry};
    ghost use Rattle.jm_history.specs.Pieces.{entries_of};

    ghost Value = { List Entry };

    ghost view = { λ p. entries_of p.part };
}

impl<'a> Piece<'a> {
    /// The entries of a row.
    pub(crate) fn row(row: &'a Row) -> Piece<'a>
        ensures { result ≡ row.now }
    {
        Piece {
            part: Part::Row(row),
        }
    }

    /// An entry alone.
    pub fn one(entry: &'a Entry) -> Piece<'a>
        ensures { result ≡ entry.now ∷ [] }
    {
        Piece {
            part: Part::One(entry),
        }
    }

    /// How many entries there are.
    pub fn len(&self) -> usize
        ensures { result ≡ length self.now }
    {
        match &self.part {
            Part::Row(row) => row.len(),
            Part::One(_) => 1,
        }
    }

    /// The entry at a place, lent.
    #[inline(always)]
    pub fn get(&self, i: usize) -> Lent<'a>
        requires { i < length self.now }
        ensures { slice_get self.now i ≡ Some result }
    {
        match &self.part {
            Part::Row(row) => row.get(i),
            Part::One(entry) => Lent::of(entry),
        }
    }

    /// The entry at a place, if it is an event of a row. It is cheaper than `get`.
    #[inline(always)]
    pub fn event(&self, i: usize) -> Option<LentEvent<'a>>
        requires { i < length self.now }
        ensures entry { IfSome result (λ event. slice_get self.now i ≡ Some (event_entry event)) }
        ensures objects { IfSome result (λ event. count_ones event.mask ≤ length event.objects.now) }
    {
        match &self.part {
            Part::Row(row) => row.event(i),
            Part::One(_) => None,
        }
    }
}
