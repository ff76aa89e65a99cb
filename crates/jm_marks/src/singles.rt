//! The marks of one parameter: for each object a byte, whose bit p is 1 where the binding of parameter p to it is a
//! mark.
ghost use Rattle.std.specs.Prelude.{ℕ, ◌≡◌, ◌≢◌, ◌+◌, ◌*◌, ◌/◌, ◌<◌, ◌↔◌, [], ◌++◌, filter, Contains, IsTrue, IfSome, IfNone, OnOk, false, length, slice_index};
ghost use Rattle.std.specs.Int.{bit_at};
ghost use Rattle.jm_model.specs.Bindings.{bound, empty};
ghost use Rattle.jm_marks.specs.Marks.{has_live, is_dead_object};
ghost use Rattle.jm_marks.specs.Singles.{singles_of, AreGone, AreDropped, IsPlaceOf, IsSingle, IsAddedTo};

use crate::watch::WORD;
use jm_model::Binding;
use jm_objects::Objects;
use std::alloc::{AllocError, Global};
use std::marker::Model;

/// The number of objects beyond those that there are which have room for a byte.
const AHEAD: u64 = 64;

/// Objects from this number on have no byte.
const MOST: u64 = 16_777_216;

/// A parameter and its object.
#[derive(Clone, Copy)]
pub(crate) struct Single {
    pub(crate) p: u8,
    pub(crate) object: u32,
}

/// What a binding binds, where that is one parameter.
pub(crate) fn single_of(binding: &Binding) -> Option<Single>
    ensures one { IfSome result (λ single. (single.p < 8) × (binding.now ≡ bound empty single.p single.object)) }
    ensures other { IfNone result (IsSingle binding.now → ⊥) }
{
    let mask = binding.mask();
    if mask == 0 {
        return None;
    }
    let p = mask.trailing_zeros() as u8;
    if mask != 1 << p {
        return None;
    }
    match binding.get(p) {
        Some(object) => Some(Single { p, object }),
        None => None,
    }
}

/// Whether a binding binds one parameter.
pub(crate) fn is_single(binding: &Binding) -> bool
    ensures yes { IsTrue result → IsSingle binding.now }
    ensures no { result ≡ false → IsSingle binding.now → ⊥ }
{
    single_of(binding).is_some()
}

/// A byte for each object below a limit, in their order.
#[derive(Drop)]
pub(crate) struct Singles {
    bytes: Vec<u8>,
    /// A bit for each object, 64 in a word. It may be 1 only where the object's byte is 0.
    gone: Vec<u64>,
}

impl Model for Singles {
    ghost use Rattle.std.specs.Prelude.{ℕ, List};
    ghost use Rattle.jm_marks.specs.Singles.{AreGone};

    ghost Value = { List ℕ };

    ghost view = { λ s. s.bytes.items };

    ghost invariant = { λ s. AreGone s.bytes.items s.gone.items };
}

impl Singles {
    /// No mark.
    pub(crate) fn new(alloc: Global) -> Singles
        ensures { singles_of result ≡ [] }
    {
        Singles {
            bytes: Vec::new(alloc),
            gone: Vec::new(alloc),
        }
    }

    /// Makes room for the objects below a limit and for some more, if there is memory. Rooms are made for many at once.
    pub(crate) fn cover(&mut self, limit: u64)
        ensures { singles_of self.new ≡ singles_of self.old }
    {
        if limit.saturating_add(AHEAD / 2) < self.bytes.len() as u64 || limit >= MOST {
            return;
        }
        let count = (limit as usize * 3 / 2 + 2 * WORD) / WORD;
        extend(&mut self.bytes, &mut self.gone, count);
    }

    /// What a binding binds, where that is one parameter, to an object that has a byte.
    pub(crate) fn place_of(&self, binding: &Binding) -> Option<Single>
        ensures some { IfSome result (λ single. IsPlaceOf self.now single.p single.object binding.now) }
        ensures none { IfNone result (Contains (singles_of self.now) binding.now → ⊥) }
    {
        let single = single_of(binding)?;
        if single.object as usize >= self.bytes.len() {
            return None;
        }
        Some(single)
    }

    /// Whether a binding is among the marks of one parameter.
    pub(crate) fn contains(&self, binding: &Binding) -> bool
        ensures { IsTrue result ↔ Contains (singles_of self.now) binding.now }
    {
        match self.place_of(binding) {
            Some(single) => (self.bytes[single.object as usize] >> single.p) % 2 == 1,
            None => false,
        }
    }

    /// Adds a binding where it isn't there.
    pub(crate) fn put(&mut self, binding: &Binding, single: Single)
        requires { IsPlaceOf self.old single.p single.object binding.now }
        ensures { IsAddedTo (singles_of self.old) binding.now (singles_of self.new) }
    {
        let object = single.object as usize;
        self.gone[object / WORD] &= !(1 << (object % WORD));
        self.bytes[object] |= 1 << single.p;
    }

    /// Drops the marks of dead objects.
    pub(crate) fn drop_dead(&mut self, objects: &Objects)
        ensures { singles_of self.new ≡ filter (has_live objects.now) (singles_of self.old) }
    {
        drop_all(&mut self.bytes, &mut self.gone, objects);
    }

    /// Appends the marks to a list.
    pub(crate) fn append_to(&self, list: &mut Vec<Binding>) -> Result<(), AllocError>
        ensures { OnOk result (list.new.items ≡ list.old.items ++ singles_of self.now) }
    {
        for place in 0..8 * self.bytes.len() {
            let p = (place % 8) as u8;
            let object = place / 8;
            if (self.bytes[object] >> p) % 2 == 1 {
                list.push(Binding::empty().bind(p, object as u32))?;
            }
        }
        Ok(())
    }
}

/// Makes room for the bytes of the given number of words of objects, if there is memory: those that are added are 0.
fn extend(bytes: &mut Vec<u8>, gone: &mut Vec<u64>, count: usize)
    requires bounded { count < 1000000 }
    requires gone { AreGone bytes.old.items gone.old.items }
    ensures gone { AreGone bytes.new.items gone.new.items }
    ensures unchanged { singles_of bytes.new.items ≡ singles_of bytes.old.items }
{
    if count > gone.len() && gone.resize(count, 0).is_ok() {
        let _ = bytes.resize(count * WORD, 0);
    }
}

/// Clears the bytes of the dead objects.
fn drop_all(bytes: &mut Vec<u8>, gone: &mut Vec<u64>, objects: &Objects)
    requires { AreGone bytes.old.items gone.old.items }
    ensures gone { AreGone bytes.new.items gone.new.items }
    ensures size { length bytes.new.items ≡ length bytes.old.items }
    ensures each { (o : ℕ) → AreDropped objects.now bytes.old.items bytes.new.items o }
{
    let words = objects.words();
    for index in 0..gone.len().min(words.len()) {
        let left = words[index] & !gone[index];
        if left > 0 {
            drop_among(bytes, gone, objects, index, left);
        }
    }
}

/// Clears the bytes of the dead among 64 objects. Where a bit of `left` is 0 there is nothing to clear.
fn drop_among(bytes: &mut Vec<u8>, gone: &mut Vec<u64>, objects: &Objects, index: usize, left: u64)
    requires in_range { index < length gone.old.items }
    requires gone { AreGone bytes.old.items gone.old.items }
    requires left { (k : ℕ) → k < 64 → bit_at left k ≡ 0
        → AreDropped objects.now bytes.old.items bytes.old.items (index * 64 + k) }
    ensures gone { AreGone bytes.new.items gone.new.items }
    ensures size { length bytes.new.items ≡ length bytes.old.items }
    ensures words { length gone.new.items ≡ length gone.old.items }
    ensures dropped { (o : ℕ) → o / 64 ≡ index → AreDropped objects.now bytes.old.items bytes.new.items o }
    ensures elsewhere { (o : ℕ) → o / 64 ≢ index → slice_index bytes.new.items o ≡ slice_index bytes.old.items o }
{
    let mut left = left;
    while left > 0 {
        let bit = left.trailing_zeros();
        let object = index * WORD + bit as usize;
        if is_gone(objects, object) {
            clear(bytes, gone, object);
        }
        left &= !(1 << bit);
    }
}

/// Whether an object of the table is dead.
fn is_gone(objects: &Objects, object: usize) -> bool
    ensures { result ≡ is_dead_object objects.now object }
{
    object < objects.len() as usize && objects.is_dead(object as u32)
}

/// Clears the byte of an object, if it has one.
fn clear(bytes: &mut Vec<u8>, gone: &mut Vec<u64>, object: usize)
    requires in_range { object / 64 < length gone.old.items }
    requires gone { AreGone bytes.old.items gone.old.items }
    ensures gone { AreGone bytes.new.items gone.new.items }
    ensures size { length bytes.new.items ≡ length bytes.old.items }
    ensures words { length gone.new.items ≡ length gone.old.items }
    ensures at_key { slice_index bytes.new.items object ≡ 0 }
    ensures elsewhere { (o : ℕ) → o ≢ object → slice_index bytes.new.items o ≡ slice_index bytes.old.items o }
{
    if object < bytes.len() {
        bytes[object] = 0;
        gone[object / WORD] |= 1 << (object % WORD);
    }
}
