//! Which marks a sweep has to look at. A mark is watched by an object that it binds, and each object has a flag that is
//! 0 only while it is alive, so that many marks whose objects are alive are passed over at once.
ghost use Rattle.std.specs.Prelude.{ℕ, ◌≡◌, ◌+◌, ◌/◌, ◌%◌, ◌*◌, ◌-◌, ◌<◌, ◌≤◌, [], ◌∷◌, ◌++◌, IsTrue, OnOk, Some, false, length, slice_index, slice_set, vec_len, vec_capacity};
ghost use Rattle.std.specs.Int.{bit_at};
ghost use Rattle.std.specs.List.{swap_remove};
ghost use Rattle.jm_marks.specs.Marks.{is_dead_object};
ghost use Rattle.jm_marks.specs.Watch.{spot_of, IsQuiet, IsAliveSpot, IsSetBy, AreFresh, AreFlags};

use jm_objects::Objects;
use std::alloc::{AllocError, Global};
use std::marker::Model;

/// The number of marks that are passed over at once.
pub(crate) const GROUP: usize = 16;

/// The number of objects beyond those that there are which have room for a flag.
const AHEAD: usize = 64;

/// Objects from this number on have no flags.
const MOST: u64 = 16_777_216;

/// The number of objects that have their flags in one word.
pub(crate) const WORD: usize = 64;

/// A spot for each mark, by its place: one more than an object that it binds, or 0.
#[derive(Drop)]
pub(crate) struct Spots {
    spots: Vec<u32>,
    /// By spots: 0 where the object was alive at the last refresh, and else 1.
    flags: Vec<u8>,
    /// The objects below it have flags.
    room: u32,
    /// The words of objects that the flags were set by.
    words: Vec<u64>,
}

impl Model for Spots {
    ghost use Rattle.std.specs.Prelude.{◌-◌, ◌≤◌, length, vec_capacity, vec_len};
    ghost use Rattle.jm_marks.specs.Watch.{Watching, AreFlags, AreSpots};

    ghost Value = { Watching };

    ghost view = { λ w. record {
      spots = w.spots.items;
      flags = w.flags.items;
      room = w.room;
      spare = vec_capacity w.spots - vec_len w.spots;
    } };

    ghost invariant = { λ w. AreFlags w.flags.items w.words.items × AreSpots w.spots.items w.flags.items
        × w.room ≤ length w.flags.items - 1 };
}

impl Spots {
    /// No mark.
    pub(crate) fn new(alloc: Global) -> Spots
        ensures { result.spots ≡ [] }
    {
        Spots {
            spots: Vec::new(alloc),
            flags: Vec::new(alloc),
            room: 0,
            words: Vec::new(alloc),
        }
    }

    /// Makes room for a mark, and where there is memory for the flags of the objects below a limit.
    pub(crate) fn reserve(&mut self, limit: u64) -> Result<(), AllocError>
        ensures spots { self.new.spots ≡ self.old.spots }
        ensures room { OnOk result (1 ≤ self.new.spare) }
    {
        self.spots.reserve(1)?;
        self.cover(limit);
        Ok(())
    }

    /// Makes room for the flags of the objects below a limit and of some more, if there is memory. Rooms are made for
    /// many at once.
    fn cover(&mut self, limit: u64)
        ensures spots { self.new.spots ≡ self.old.spots }
        ensures spare { self.new.spare ≡ self.old.spare }
    {
        if limit > self.room as u64 {
            let count = (limit.min(MOST) as usize + AHEAD) * 3 / 2 / WORD;
            if extend(&mut self.flags, &mut self.words, count) {
                self.room = (count * WORD) as u32;
            }
        }
    }

    /// How many marks there are.
    pub(crate) fn len(&self) -> usize
        ensures { result ≡ length self.now.spots }
    {
        self.spots.len()
    }

    /// Adds a mark that binds an object, or none.
    pub(crate) fn push(&mut self, object: Option<u32>)
        requires { 1 ≤ self.old.spare }
        ensures spots { self.new.spots ≡ self.old.spots ++ spot_of self.old.room object ∷ [] }
        ensures spare { self.old.spare ≤ self.new.spare + 1 }
    {
        let spot = spot(object, self.room);
        self.spots.push_reserved(spot);
    }

    /// Has a mark watched by another object.
    pub(crate) fn put(&mut self, place: usize, object: u32)
        requires { place < length self.old.spots }
        ensures spots { self.new.spots ≡ slice_set self.old.spots place (spot_of self.old.room (Some object)) }
        ensures flags { self.new.flags ≡ self.old.flags }
        ensures spare { self.new.spare ≡ self.old.spare }
    {
        let spot = spot(Some(object), self.room);
        self.spots[place] = spot;
    }

    /// Takes a mark out; the last one takes its place.
    pub(crate) fn remove(&mut self, place: usize)
        requires { place < length self.old.spots }
        ensures spots { self.new.spots ≡ swap_remove self.old.spots place (slice_index self.old.spots place) }
        ensures flags { self.new.flags ≡ self.old.flags }
        ensures spare { self.old.spare ≤ self.new.spare }
    {
        let _ = self.spots.swap_remove(place);
    }

    /// Sets the flags as the objects are, where there are enough marks that this pays, and answers whether it did.
    pub(crate) fn refresh(&mut self, objects: &Objects) -> bool
        ensures spots { self.new.spots ≡ self.old.spots }
        ensures fresh { IsTrue result → AreFresh objects.now self.new.flags }
        ensures spare { self.new.spare ≡ self.old.spare }
    {
        if self.spots.len() / 8 < self.words.len() {
            return false;
        }
        renew(&mut self.flags, &mut self.words, objects);
        true
    }

    /// Whether the object of the mark at a place is alive, if it has a spot.
    pub(crate) fn is_alive(&self, objects: &Objects, place: usize) -> bool
        requires { place < length self.now.spots }
        ensures { IsTrue result → IsAliveSpot objects.now (slice_index self.now.spots place) }
    {
        let object = self.spots[place].wrapping_sub(1);
        object < objects.len() && !objects.is_dead(object)
    }

    /// Whether all marks of a group from a place on have spots, of objects that were alive at the last refresh.
    pub(crate) fn are_quiet(&self, place: usize) -> bool
        requires { place + GROUP ≤ length self.now.spots }
        ensures { IsTrue result → (k : ℕ) → place ≤ k → k < place + GROUP
            → IsQuiet self.now.flags (slice_index self.now.spots k) }
    {
        if self.flags.is_empty() {
            return false;
        }
        let mut loud = 0;
        for at in place..place + GROUP {
            loud |= self.flags[self.spots[at] as usize];
        }
        loud == 0
    }
}

/// The spot of an object that is below a limit, and else 0.
fn spot(object: Option<u32>, room: u32) -> u32
    ensures { result ≡ spot_of room object }
{
    match object {
        Some(object) if object < room => object + 1,
        _ => 0,
    }
}

/// Makes the flags those of at least the given number of words, if there is memory, and answers whether they are: the
/// new ones are 1.
fn extend(flags: &mut Vec<u8>, words: &mut Vec<u64>, count: usize) -> bool
    requires bounded { count < 1000000000 }
    requires flags { AreFlags flags.old.items words.old.items }
    ensures flags { AreFlags flags.new.items words.new.items }
    ensures more { length flags.old.items ≤ length flags.new.items }
    ensures room { IsTrue result → 64 * count < length flags.new.items }
{
    let size = count * WORD + 1;
    if size <= flags.len() {
        return true;
    }
    let is_longer = flags.resize(size, 1).is_ok();
    if is_longer {
        let _ = words.resize(count, u64::MAX);
    }
    is_longer
}

/// Sets the flags as the objects are.
fn renew(flags: &mut Vec<u8>, words: &mut Vec<u64>, objects: &Objects)
    requires { AreFlags flags.old.items words.old.items }
    ensures flags { AreFlags flags.new.items words.new.items }
    ensures size { length flags.new.items ≡ length flags.old.items }
    ensures fresh { AreFresh objects.now flags.new.items }
{
    for index in 0..words.len() {
        let word = word_of(objects, index);
        let changed = word ^ words[index];
        if changed > 0 {
            words[index] = word;
            set_flags(flags, index * WORD + 1, word, changed);
        }
    }
}

/// The flags of 64 objects; those that aren't there are alive.
fn word_of(objects: &Objects, index: usize) -> u64
    ensures { (o : ℕ) → o / 64 ≡ index → bit_at result (o % 64) ≡ 0 → is_dead_object objects.now o ≡ false }
{
    if index < (objects.len() as usize).div_ceil(WORD) {
        return objects.word(index as u32);
    }
    0
}

/// Sets those of 64 flags from a spot on that changed, by the bits of a word.
fn set_flags(flags: &mut Vec<u8>, first: usize, word: u64, changed: u64)
    requires { first + 64 ≤ length flags.old.items }
    ensures size { length flags.new.items ≡ length flags.old.items }
    ensures bits { (k : ℕ) → k < 64
        → IsSetBy (slice_index flags.old.items (first + k)) (slice_index flags.new.items (first + k)) (bit_at word k) }
    ensures all { (k : ℕ) → k < 64 → bit_at changed k ≡ 1 → slice_index flags.new.items (first + k) ≡ bit_at word k }
    ensures before { (k : ℕ) → k < first → slice_index flags.new.items k ≡ slice_index flags.old.items k }
    ensures behind { (k : ℕ) → first + 64 ≤ k → slice_index flags.new.items k ≡ slice_index flags.old.items k }
{
    let mut left = changed;
    while left > 0 {
        let bit = left.trailing_zeros();
        flags[first + bit as usize] = ((word >> bit) % 2) as u8;
        left &= !(1 << bit);
    }
}
