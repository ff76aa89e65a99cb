//! The board.
ghost use Rattle.std.specs.Prelude.{◌≡◌, ◌<◌, All, IfOk, MatchResult};

use crate::shelves::{Posted, Shelves};
use jm_model::NoMemory;
use std::alloc::Global;
use std::marker::Model;
use std::sync::{Condvar, Mutex, Wait};

/// A board on which callers on many threads post items under names and take them. Contracts see how many names it has.
///
/// A call that takes the board's lock can't tell what another call did. That an `Err` of `take` is a value that
/// `give_up` handed in is by the type: no call makes one.
#[derive(Drop)]
pub struct Board<T: Posted + Drop, W: Posted + Copy + Drop> {
    names: u32,
    shelves: Mutex<Shelves<T, W>>,
    changed: Condvar,
}

impl<T: Posted + Drop, W: Posted + Copy + Drop> Model for Board<T, W> {
    ghost use Rattle.std.specs.Prelude.{ℕ};

    ghost Value = { ℕ };

    ghost view = { λ b. b.names };
}

impl<T: Posted + Drop, W: Posted + Copy + Drop> Board<T, W> {
    /// A board for the names below `names`, with nothing under them.
    pub fn new(alloc: Global, names: u32) -> Result<Board<T, W>, NoMemory>
        ensures { IfOk result (λ board. board ≡ names) }
    {
        let shelves = Shelves::new(alloc, names)?;
        Ok(Board {
            names,
            shelves: Mutex::new(shelves),
            changed: Condvar::new(),
        })
    }

    /// Posts items under a name, in the place of those that are left there.
    pub fn post(&self, rt: &impl Wait, name: u32, items: Vec<T>)
        requires name { name < self.now }
        requires items { All (λ x. T.number x ≡ name) items.items }
    {
        self.shelves.lock(rt).put(name, items);
        self.changed.notify_all();
    }

    /// Gives a name up, for a reason.
    pub fn give_up(&self, rt: &impl Wait, name: u32, why: W)
        requires name { name < self.now }
        requires why { W.number why ≡ name }
    {
        self.shelves.lock(rt).give_up(name, why);
        self.changed.notify_all();
    }

    /// Takes an item that is left under a name, or answers why the name was given up if none is left. Waits until there
    /// is either.
    pub fn take(&self, rt: &impl Wait, name: u32) -> Result<T, W>
        requires { name < self.now }
        ensures { MatchResult result (λ x. T.number x ≡ name) (λ w. W.number w ≡ name) }
    {
        let mut shelves = self.shelves.lock(rt);
        for _ in rt.forever() {
            if let Some(found) = shelves.take(name) {
                return found;
            }
            shelves = self.changed.wait(rt, shelves);
        }
        unreachable!()
    }
}
