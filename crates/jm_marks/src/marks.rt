ghost use Rattle.std.specs.Prelude.{ℕ, ◌≡◌, ◌≢◌, ◌+◌, ◌<◌, ◌≤◌, ◌↔◌, [], ◌∷◌, ◌++◌, filter, Contains, IsTrue, IfOk, OnOk, false, vec_len, vec_capacity};
ghost use Rattle.std.specs.List.{AllPairs};
ghost use Rattle.std.specs.List.Sorted.{IsPermutation};
ghost use Rattle.jm_marks.specs.Marks.{has_live, IsCovered, IsCoveredAt};

use crate::bound::{first_object, is_beyond, raised};
use crate::hints::Hints;
use crate::singles::{Singles, is_single};
use crate::sweep::drop_dead;
use crate::watch::Spots;
use indexmap::IndexSet;
use jm_model::{Binding, NoMemory};
use jm_objects::Objects;
use std::alloc::Global;
use std::marker::Model;

/// Distinct bindings. Contracts see them as a list, and a number beside it, `spare`: the count of calls
/// of `add` that can be made at least before memory is wanted again.
#[derive(Drop)]
pub struct Marks {
    singles: Singles,
    /// Whether marks of one parameter stand among the bindings, where an object had no byte when the mark was added.
    has_strays: bool,
    bindings: IndexSet<Binding>,
    watch: Spots,
    masks: Vec<u8>,
    /// All objects of marks are below it.
    limit: u64,
    hints: Hints,
}

impl Model for Marks {
    ghost use Rattle.jm_marks.specs.Marks.{MarkList};

    ghost Value = { MarkList };

    ghost use Rattle.std.specs.Prelude.{min, ◌-◌, ◌++◌, vec_capacity, vec_len};
    ghost use Rattle.indexmap.specs.IndexSet.{spare};
    ghost use Rattle.jm_marks.specs.Layout.{AreMarks, AreApart, AreWatched};
    ghost use Rattle.jm_marks.specs.Singles.{singles_of};

    ghost view = { λ m. record {
      list = singles_of m.singles ++ m.bindings.keys;
      spare = min (spare m.bindings)
          (min (vec_capacity m.masks - vec_len m.masks) m.watch.spare);
    } };

    ghost invariant = { λ m. AreMarks (singles_of m.singles ++ m.bindings.keys) m.masks.items m.limit
        × AreApart (singles_of m.singles) m.bindings.keys m.has_strays × AreWatched m.bindings.keys m.watch.spots };
}

impl Marks {
    /// No mark.
    pub fn new(alloc: Global) -> Marks
        ensures { result.list ≡ [] }
    {
        Marks {
            singles: Singles::new(alloc),
            has_strays: false,
            bindings: IndexSet::new(alloc),
            watch: Spots::new(alloc),
            masks: Vec::new(alloc),
            limit: 0,
            hints: Hints::new(alloc),
        }
    }

    /// Makes room for one `add`: a place for a binding and its object, and one for a set of parameters. Where there is
    /// room already it costs nothing; where there is none, the places are made for many.
    pub fn reserve(&mut self) -> Result<(), NoMemory>
        ensures list { self.new.list ≡ self.old.list }
        ensures room { OnOk result (1 ≤ self.new.spare) }
    {
        self.masks.reserve(1)?;
        self.watch.reserve(self.limit)?;
        self.bindings.reserve(1)?;
        self.singles.cover(self.limit);
        if self.bindings.len() > 0 {
            self.hints.cover(self.limit);
        }
        Ok(())
    }

    /// Adds a binding where it isn't there. It takes no memory.
    pub fn add(&mut self, binding: Binding)
        requires { 1 ≤ self.old.spare }
        ensures known { Contains self.old.list binding → self.new.list ≡ self.old.list }
        ensures unknown { (Contains self.old.list binding → ⊥)
            → IsPermutation (binding ∷ self.old.list) self.new.list }
        ensures spare { self.old.spare ≤ self.new.spare + 1 }
    {
        list_mask(&mut self.masks, binding.mask());
        self.limit = raised(self.limit, &binding);
        if let Some(single) = self.singles.place_of(&binding) {
            if !self.has_strays || !self.bindings.contains(&binding) {
                self.singles.put(&binding, single);
            }
            return;
        }
        self.has_strays = self.has_strays || is_single(&binding);
        let place = self.bindings.len();
        match self.bindings.insert(binding) {
            Ok(true) => {
                self.watch.push(first_object(&binding));
                self.hints.note(&binding, place);
            }
            Ok(false) => {}
            Err(_) => unreachable!(),
        }
    }

    /// Whether a binding is a mark. It is looked up where the hint doesn't lead to it and no object of it is beyond
    /// those of all marks.
    pub fn contains(&self, binding: &Binding) -> bool
        ensures { IsTrue result ↔ Contains self.now.list binding.now }
    {
        if self.singles.contains(binding) {
            return true;
        }
        if !self.has_strays && is_single(binding) {
            return false;
        }
        if is_hinted(&self.hints, &self.bindings, binding) {
            return true;
        }
        if is_beyond(self.limit, binding) {
            return false;
        }
        self.bindings.contains(binding)
    }

    /// Whether every mark that lies below `above` lies below `below`.
    pub fn covers(&self, above: &Binding, below: &Binding) -> bool
        ensures { IsTrue result ↔ IsCovered self.now.list above.now below.now }
    {
        for mask in &self.masks {
            if self.breaks(*mask, above, below) {
                return false;
            }
        }
        true
    }

    /// Whether a mark of these parameters lies below `above` and not below `below`: if so, it is what `above` gives to
    /// them.
    fn breaks(&self, mask: u8, above: &Binding, below: &Binding) -> bool
        ensures found { IsTrue result → IsCovered self.now.list above.now below.now → ⊥ }
        ensures none { result ≡ false → IsCoveredAt self.now.list above.now below.now mask }
    {
        let part = above.restrict(mask);
        if part.mask() != mask {
            return false;
        }
        if part.le(below) {
            return false;
        }
        self.contains(&part)
    }

    /// Keeps exactly the marks that bind a live object, in an order of their own.
    pub fn sweep(&mut self, objects: &Objects)
        ensures list { IsPermutation (filter (has_live objects.now) self.old.list) self.new.list }
        ensures spare { self.old.spare ≤ self.new.spare }
    {
        self.singles.drop_dead(objects);
        drop_dead(
            &mut self.bindings,
            &mut self.watch,
            &mut self.hints,
            objects,
        );
    }

    /// The marks, in order.
    pub fn to_list(&self) -> Result<Vec<Binding>, NoMemory>
        ensures list { IfOk result (λ list. list.items ≡ self.now.list) }
        ensures distinct { AllPairs (λ a b. a ≢ b) self.now.list }
    {
        let mut list = Vec::new(*self.bindings.allocator());
        self.singles.append_to(&mut list)?;
        list.extend_from_slice(self.bindings.as_slice())?;
        Ok(list)
    }
}

/// Adds a set of parameters to a list where it isn't there.
fn list_mask(masks: &mut Vec<u8>, mask: u8)
    requires { vec_len masks.old < vec_capacity masks.old }
    ensures kept { (m : ℕ) → Contains masks.old.items m → Contains masks.new.items m }
    ensures present { Contains masks.new.items mask }
    ensures room { vec_len masks.new + vec_capacity masks.old ≤ vec_capacity masks.new + vec_len masks.old + 1 }
{
    if !masks.contains(&mask) {
        masks.push_reserved(mask);
    }
}

/// Whether a binding stands where the hint says.
fn is_hinted(hints: &Hints, bindings: &IndexSet<Binding>, binding: &Binding) -> bool
    ensures { IsTrue result → Contains bindings.now.keys binding.now }
{
    match hints.place_of(binding) {
        Some(place) => stands_at(bindings, place, binding),
        None => false,
    }
}

/// Whether a binding stands at a place.
fn stands_at(bindings: &IndexSet<Binding>, place: usize, binding: &Binding) -> bool
    ensures { IsTrue result → Contains bindings.now.keys binding.now }
{
    match bindings.as_slice().get(place) {
        Some(there) => there.is_same(binding),
        None => false,
    }
}
