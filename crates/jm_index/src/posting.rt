//! A posting: positions of entries that share an object.
ghost use Rattle.std.specs.Prelude.{◌≡◌, ℕ, ◌≤◌, ◌-◌, [], ◌∷◌, ◌++◌, true, false, Some, Contains, OnOk, OnErr, length, slice_get};
ghost use Rattle.jm_index.specs.Layout.{Rises, IsFiled, is_live_at};
ghost use Rattle.jm_index.specs.Postings.{IsThinned};

use crate::entry::{Entry, is_live_at};
use crate::growth::grow;
use jm_model::NoMemory;
use std::marker::Model;

/// The positions of a path, in rising order, and the path whose they are.
#[derive(Drop)]
pub(crate) struct Posting {
    owner: usize,
    positions: Vec<usize>,
    /// How many positions have lost their entries since these were last thinned out.
    stale: u32,
    /// Of a posting that was emptied: the one that was emptied before it.
    next: u32,
}

impl Model for Posting {
    ghost use Rattle.jm_index.specs.Postings.{Owned};
    ghost use Rattle.jm_index.specs.Layout.{Rises};

    ghost Value = { Owned };

    ghost view = { λ p. record { owner = p.owner; positions = p.positions.items } };

    ghost invariant = { λ p. Rises 0 p.positions.items };
}

impl Posting {
    /// The posting of a path.
    pub(crate) fn new(owner: usize, positions: Vec<usize>) -> Posting
        requires { Rises 0 positions.items }
        ensures { result ≡ record { owner = owner; positions = positions.items } }
    {
        Posting {
            owner,
            positions,
            stale: 0,
            next: 0,
        }
    }

    pub(crate) fn owner(&self) -> usize
        ensures { result ≡ self.now.owner }
    {
        self.owner
    }

    /// Of a posting that was emptied: the one that was emptied before it.
    pub(crate) fn next(&self) -> u32 {
        self.next
    }

    pub(crate) fn positions(&self) -> &[usize]
        ensures value { result.now ≡ self.now.positions }
        ensures rising { Rises 0 self.now.positions }
    {
        self.positions.as_slice()
    }

    /// Files a position that is above all others, or is the last.
    pub(crate) fn file(&mut self, position: usize) -> Result<(), NoMemory>
        requires { (x : ℕ) → Contains self.old.positions x → x ≤ position }
        ensures filed { IsFiled position self.old.positions self.new.positions }
        ensures present { OnOk result (Contains self.new.positions position) }
        ensures owner { self.new.owner ≡ self.old.owner }
    {
        if is_last(self.positions.as_slice(), position) {
            return Ok(());
        }
        grow(&mut self.positions, 1)?;
        self.positions.push_reserved(position);
        Ok(())
    }

    /// Counts a position whose entry isn't live any more. Once these are more than half, they go.
    pub(crate) fn thin(&mut self, entries: &[Entry])
        ensures within { (x : ℕ) → Contains self.new.positions x → Contains self.old.positions x }
        ensures live { (x : ℕ) → is_live_at entries.now x ≡ true → Contains self.old.positions x
            → Contains self.new.positions x }
        ensures owner { self.new.owner ≡ self.old.owner }
    {
        self.stale = self.stale.saturating_add(1);
        if self.stale as usize > self.positions.len() / 2 {
            retain_live(&mut self.positions, entries);
            self.stale = 0;
        }
    }

    /// Lets go of the positions.
    pub(crate) fn empty(&mut self, next: u32)
        ensures { self.new.positions ≡ [] }
    {
        self.positions = Vec::new(*self.positions.allocator());
        self.stale = 0;
        self.next = next;
    }
}

/// Keeps the positions whose entries are live.
fn retain_live(positions: &mut Vec<usize>, entries: &[Entry])
    ensures { IsThinned (is_live_at entries.now) positions.old.items positions.new.items }
{
    positions.retain(|position| is_live_at(entries, *position));
}

/// Whether a number is the last of a list.
fn is_last(list: &[usize], number: usize) -> bool
    ensures yes { result ≡ true → Contains list.now number }
    ensures no { result ≡ false → slice_get list.now (length list.now - 1) ≡ Some number → ⊥ }
{
    match list.last() {
        Some(last) => *last == number,
        None => false,
    }
}
