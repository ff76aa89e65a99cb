//! What lies under the board's lock.
ghost use Rattle.std.specs.Prelude.{◌≡◌, ◌<◌, All, IfOk, IfSome, MatchResult, length, vec_len};

use jm_model::NoMemory;
use std::alloc::Global;
use std::marker::Model;

/// A thing that is posted under a name, or says why one was given up. It has the number of the name, which its value
/// need not hold.
pub trait Posted {
    ghost use Rattle.std.specs.Prelude.{ℕ};

    ghost number: { Self → ℕ };
}

/// That a name was given up, and which.
#[derive(Clone, Copy, Debug, PartialEq, Eq)]
pub struct GaveUp {
    pub name: u32,
}

impl Posted for GaveUp {
    ghost number = { λ g. g.name };
}

/// What stands under one name: the items that are left, and why it was given up, if it was.
#[derive(Drop)]
pub(crate) struct Shelf<T: Drop, W: Drop> {
    items: Vec<T>,
    given_up: Option<W>,
}

/// A shelf for each name. All that stands on a shelf has the shelf's number.
#[derive(Drop)]
pub(crate) struct Shelves<T: Posted + Drop, W: Posted + Copy + Drop> {
    list: Vec<Shelf<T, W>>,
}

impl<T: Posted + Drop, W: Posted + Copy + Drop> Model for Shelves<T, W> {
    ghost use Rattle.std.specs.Prelude.{ℕ, length};
    ghost use Rattle.jm_sync.specs.Shelves.{AreSorted};

    ghost Value = { ℕ };

    ghost view = { λ s. length s.list.items };

    ghost invariant = { λ s. AreSorted T.number W.number s.list.items };
}

impl<T: Posted + Drop, W: Posted + Copy + Drop> Shelves<T, W> {
    /// Empty shelves for the given number of names.
    pub(crate) fn new(alloc: Global, names: u32) -> Result<Shelves<T, W>, NoMemory>
        ensures { IfOk result (λ s. s ≡ names) }
    {
        let mut list = Vec::new(alloc);
        for _name in 0..names {
            list.push(Shelf {
                items: Vec::new(alloc),
                given_up: None,
            })?;
        }
        Ok(Shelves { list })
    }

    /// Puts items on a shelf, in the place of those that are left.
    pub(crate) fn put(&mut self, name: u32, items: Vec<T>)
        requires { All (λ x. T.number x ≡ name) items.items }
    {
        let place = name as usize;
        if place < self.list.len() {
            self.list[place].items = items;
        }
    }

    /// Gives a name up.
    pub(crate) fn give_up(&mut self, name: u32, why: W)
        requires { W.number why ≡ name }
    {
        let place = name as usize;
        if place < self.list.len() {
            self.list[place].given_up = Some(why);
        }
    }

    /// Takes an item off a shelf, or tells why its name was given up, or nothing while neither is there.
    pub(crate) fn take(&mut self, name: u32) -> Option<Result<T, W>>
        ensures { IfSome result (λ r. MatchResult r (λ x. T.number x ≡ name) (λ w. W.number w ≡ name)) }
    {
        let place = name as usize;
        if place >= self.list.len() {
            return None;
        }
        let shelf = &mut self.list[place];
        if let Some(item) = shelf.items.pop() {
            return Some(Ok(item));
        }
        let why = shelf.given_up?;
        Some(Err(why))
    }
}
