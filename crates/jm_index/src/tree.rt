//! A tree: positions by path. Most paths lead to one position, and this takes no memory of its own.
ghost use Rattle.std.specs.Prelude.{◌≡◌, ℕ, ◌≤◌, ◌<◌, ◌+◌, ◌^◌, ◌==◌, [], ◌∷◌, Some, None, Contains, OnOk, OnErr, IfOk, IfSome, IfNone, length, true, false, if◌then◌else◌};
ghost use Rattle.jm_index.specs.Postings.{one_of, many_of, owned_at, posting_by, leaf_of, IsOwned};
ghost use Rattle.jm_index.specs.Layout.{Rises, IsFiled, is_live_at, posting_of};

use crate::entry::{Entry, is_live_at};
use crate::growth::grow;
use crate::posting::Posting;
use jm_model::NoMemory;
use std::alloc::Global;
use std::marker::Model;

/// What a path leads to: nothing, one position, or the posting of this number, if the path owns it.
#[derive(Clone, Copy)]
pub(crate) enum Leaf {
    Nothing,
    One(u32),
    Many(u32),
}

/// Leaves by path, and postings. A path beyond the last leads to nothing.
#[derive(Drop)]
pub(crate) struct Tree {
    leaves: Vec<Leaf>,
    postings: Vec<Posting>,
    /// One more than the number of the posting that was emptied last, or 0.
    emptied: u32,
}

impl Model for Tree {
    ghost use Rattle.jm_index.specs.Postings.{Paths};

    ghost Value = { Paths };

    ghost view = { λ t. record { leaves = t.leaves.items; postings = t.postings.items } };
}

impl Tree {
    pub(crate) fn new(alloc: Global) -> Tree
        ensures { result ≡ record { leaves = []; postings = [] } }
    {
        Tree {
            leaves: Vec::new(alloc),
            postings: Vec::new(alloc),
            emptied: 0,
        }
    }

    /// The position that a path leads to, where it leads to one alone.
    pub(crate) fn one(&self, path: usize) -> Option<usize>
        ensures value { result ≡ one_of self.now path }
        ensures within { IfSome result (λ position. path < length self.now.leaves) }
    {
        match self.leaves.get(path) {
            Some(Leaf::One(position)) => Some(*position as usize),
            _ => None,
        }
    }

    /// The positions of the posting that a path owns.
    pub(crate) fn many(&self, path: usize) -> &[usize]
        ensures value { result.now ≡ many_of self.now path }
        ensures rising { Rises 0 result.now }
    {
        match self.number(path) {
            Some(number) => self.postings[number as usize].positions(),
            None => &[],
        }
    }

    /// How many positions a path leads to.
    pub(crate) fn count(&self, path: usize) -> usize {
        match self.leaves.get(path) {
            Some(Leaf::One(_)) => 1,
            Some(Leaf::Many(number)) => self.length(*number),
            _ => 0,
        }
    }

    /// How many positions a posting has.
    fn length(&self, number: u32) -> usize {
        match self.postings.get(number as usize) {
            Some(posting) => posting.positions().len(),
            None => 0,
        }
    }

    /// The number of the posting that a path owns.
    fn number(&self, path: usize) -> Option<u32>
        ensures some { IfSome result (λ number. IsOwned self.now path number) }
        ensures none { IfNone result (many_of self.now path ≡ []) }
    {
        match self.leaves.get(path) {
            Some(Leaf::Many(number)) => {
                if self.is_owner(path, *number) {
                    Some(*number)
                } else {
                    None
                }
            }
            _ => None,
        }
    }

    /// Whether there is a posting of a number, and a path owns it.
    fn is_owner(&self, path: usize, number: u32) -> bool
        ensures within { result ≡ true → number < length self.now.postings }
        ensures yes { result ≡ true → (posting_by self.now.postings number).owner ≡ path }
        ensures no { result ≡ false → owned_at self.now.postings path number ≡ [] }
    {
        match self.postings.get(number as usize) {
            Some(posting) => posting.owner() == path,
            None => false,
        }
    }

    /// Makes a path, where there is none.
    fn cover(&mut self, path: usize) -> Result<(), NoMemory>
        requires { path ≤ 2 ^ 32 }
        ensures unchanged { (q : ℕ) → leaf_of self.new q ≡ leaf_of self.old q }
        ensures postings { self.new.postings ≡ self.old.postings }
        ensures in_range { OnOk result (path < length self.new.leaves) }
    {
        let len = self.leaves.len();
        if len <= path {
            grow(&mut self.leaves, path - len + 1)?;
            for _ in len..=path {
                self.leaves.push_reserved(Leaf::Nothing);
            }
        }
        Ok(())
    }

    /// Files a position under a path.
    pub(crate) fn file(&mut self, path: usize, position: usize) -> Result<(), NoMemory>
        requires last { (x : ℕ) → Contains (posting_of self.old path) x → x ≤ position }
        requires short { path ≤ 2 ^ 32 }
        ensures filed { IsFiled position (posting_of self.old path) (posting_of self.new path) }
        ensures present { OnOk result (Contains (posting_of self.new path) position) }
        ensures others { (q : ℕ) → (q ≡ path → ⊥) → posting_of self.new q ≡ posting_of self.old q }
    {
        self.cover(path)?;
        if let Some(number) = self.number(path) {
            return self.file_further(path, number, position);
        }
        match self.one(path) {
            Some(first) => self.file_second(path, first, position),
            None => self.file_first(path, position),
        }
    }

    /// Files a position under a path that leads to nothing.
    fn file_first(&mut self, path: usize, position: usize) -> Result<(), NoMemory>
        requires within { path < length self.old.leaves }
        requires none { posting_of self.old path ≡ [] }
        ensures ok { OnOk result (posting_of self.new path ≡ position ∷ []) }
        ensures err { OnErr result (posting_of self.new path ≡ posting_of self.old path) }
        ensures others { (q : ℕ) → (q ≡ path → ⊥) → posting_of self.new q ≡ posting_of self.old q }
    {
        if let Ok(short) = u32::try_from(position) {
            self.leaves[path] = Leaf::One(short);
            return Ok(());
        }
        let positions = list_of(*self.leaves.allocator(), None, position)?;
        self.lead_to(path, positions)
    }

    /// Files a position under a path that leads to one alone.
    fn file_second(&mut self, path: usize, first: usize, position: usize) -> Result<(), NoMemory>
        requires within { path < length self.old.leaves }
        requires one { posting_of self.old path ≡ first ∷ [] }
        requires last { first ≤ position }
        ensures filed { IsFiled position (posting_of self.old path) (posting_of self.new path) }
        ensures present { OnOk result (Contains (posting_of self.new path) position) }
        ensures others { (q : ℕ) → (q ≡ path → ⊥) → posting_of self.new q ≡ posting_of self.old q }
    {
        if first == position {
            return Ok(());
        }
        let positions = list_of(*self.leaves.allocator(), Some(first), position)?;
        self.lead_to(path, positions)
    }

    /// Files a position in the posting that a path owns.
    fn file_further(&mut self, path: usize, number: u32, position: usize) -> Result<(), NoMemory>
        requires owned { IsOwned self.old path number }
        requires last { (x : ℕ) → Contains (posting_of self.old path) x → x ≤ position }
        ensures filed { IsFiled position (posting_of self.old path) (posting_of self.new path) }
        ensures present { OnOk result (Contains (posting_of self.new path) position) }
        ensures others { (q : ℕ) → (q ≡ path → ⊥) → posting_of self.new q ≡ posting_of self.old q }
    {
        let posting = &mut self.postings[number as usize];
        posting.file(position)
    }

    /// Makes a path lead to these positions.
    fn lead_to(&mut self, path: usize, positions: Vec<usize>) -> Result<(), NoMemory>
        requires within { path < length self.old.leaves }
        requires rising { Rises 0 positions.items }
        ensures ok { OnOk result (posting_of self.new path ≡ positions.items) }
        ensures err { OnErr result (posting_of self.new path ≡ posting_of self.old path) }
        ensures others { (q : ℕ) → (q ≡ path → ⊥) → posting_of self.new q ≡ posting_of self.old q }
    {
        let number = self.keep(Posting::new(path, positions))?;
        self.leaves[path] = Leaf::Many(number);
        Ok(())
    }

    /// Keeps a posting, in the place of one that was emptied if there is one, and answers its number. More postings
    /// than numbers of four bytes are more than memory holds.
    fn keep(&mut self, posting: Posting) -> Result<u32, NoMemory>
        ensures leaves { self.new.leaves ≡ self.old.leaves }
        ensures at_key { IfOk result (λ number. posting_by self.new.postings number ≡ posting) }
        ensures others { (q i : ℕ) → (q ≡ posting.owner → ⊥)
            → owned_at self.new.postings q i ≡ owned_at self.old.postings q i }
        ensures err { OnErr result (self.new.postings ≡ self.old.postings) }
    {
        if let Some(number) = self.vacant() {
            self.emptied = self.postings[number as usize].next();
            self.postings[number as usize] = posting;
            return Ok(number);
        }
        let Ok(number) = u32::try_from(self.postings.len()) else {
            return Err(NoMemory);
        };
        self.postings.push(posting)?;
        Ok(number)
    }

    /// The number of a posting that was emptied.
    fn vacant(&self) -> Option<u32>
        ensures within { IfSome result (λ number. number < length self.now.postings) }
        ensures empty { IfSome result (λ number. (posting_by self.now.postings number).positions ≡ []) }
    {
        let number = self.emptied.checked_sub(1)?;
        let posting = self.postings.get(number as usize)?;
        if posting.positions().is_empty() {
            Some(number)
        } else {
            None
        }
    }

    /// Thins out a path from which a position's entry was removed.
    pub(crate) fn thin(&mut self, path: usize, entries: &[Entry])
        ensures within { (q x : ℕ) → Contains (posting_of self.new q) x → Contains (posting_of self.old q) x }
        ensures live { (q x : ℕ) → is_live_at entries.now x ≡ true → Contains (posting_of self.old q) x
            → Contains (posting_of self.new q) x }
    {
        if let Some(number) = self.number(path) {
            let posting = &mut self.postings[number as usize];
            posting.thin(entries);
        } else if let Some(position) = self.one(path)
            && !is_live_at(entries, position)
        {
            self.leaves[path] = Leaf::Nothing;
        }
    }

    /// Drops what a path leads to.
    pub(crate) fn clear(&mut self, path: usize)
        ensures { (q : ℕ) → posting_of self.new q ≡ (if q == path then [] else posting_of self.old q) }
    {
        if let Some(number) = self.number(path) {
            let posting = &mut self.postings[number as usize];
            posting.empty(self.emptied);
            self.emptied = number.saturating_add(1);
        }
        if path < self.leaves.len() {
            self.leaves[path] = Leaf::Nothing;
        }
    }
}

/// A list of two positions, or of one.
fn list_of(alloc: Global, first: Option<usize>, last: usize) -> Result<Vec<usize>, NoMemory>
    ensures one { first ≡ None → IfOk result (λ list. list.items ≡ last ∷ []) }
    ensures two { (k : ℕ) → first ≡ Some k → IfOk result (λ list. list.items ≡ k ∷ last ∷ []) }
{
    let mut list = Vec::with_capacity(alloc, 2)?;
    if let Some(first) = first {
        list.push(first)?;
    }
    list.push(last)?;
    Ok(list)
}
