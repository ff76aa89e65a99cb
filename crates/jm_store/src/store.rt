ghost use Rattle.std.specs.Prelude.{◌≡◌, ◌≢◌, ℕ, AllPairs, List, Bool, [], ◌∷◌, true, false, IfOk, map, IsBitSet};
ghost use Rattle.std.specs.List.Sorted.{IsPermutation, IsSortedBy};
ghost use Rattle.std.specs.Ordering.{is_lt};
ghost use Rattle.jm_model.specs.Bindings.{empty, binding_cmp};
ghost use Rattle.jm_monitors.specs.Steps.{IsAtStart};
ghost use Rattle.jm_store.specs.Moves.{ends_all};
ghost use Rattle.jm_store.specs.Contents.{Contents, stored_of, IsFit, IsFitFor, IsStoreAfter};

mod advance;
mod at_once;
mod commit;
mod dispose;
mod listed;
mod place;
mod reach;
mod slot;

use crate::monitors::Monitors;
use crate::moves::Move;
use crate::walk::Shift;
pub use advance::Done;
use jm_index::Index;
use jm_marks::Marks;
use jm_model::{Binding, Monitor, NoMemory, Steps};
use jm_monitors::Stored;
use std::alloc::Global;
use std::marker::{Brand, Model};
use std::mem;
use std::sync::ledger::{Blank, Ledger};

/// The stored monitors of one specification, and its marks.
pub struct Store<M: Monitor> {
    monitors: Monitors<M::State>,
    index: Index,
    marks: Marks,
    /// The sets of parameters that bindings of the index ever had.
    domains: Vec<u8>,
    /// For each set of parameters letters that end all monitors with it.
    ending: [u32; 256],
    is_open: bool,
    /// Room for the slots that an event reads, for its moves, and for these once they have slots. It is used again from
    /// event to event.
    slots: Vec<usize>,
    moves: Vec<Move<M::State>>,
    placed: Vec<Move<M::State>>,
    /// Room for what becomes of the monitors of a list.
    shifts: Vec<Shift>,
}

// Written out, so that a drop is one call wherever a store is let go.
impl<M: Monitor> Drop for Store<M> {
    fn drop(self) {
        let Store {
            monitors: _,
            index: _,
            marks: _,
            domains: _,
            ending: _,
            is_open: _,
            slots: _,
            moves: _,
            placed: _,
            shifts: _,
        } = self;
    }
}

impl<M: Monitor> Model for Store<M> {
    ghost use Rattle.jm_store.specs.Slots.{monitors_of};
    ghost use Rattle.jm_store.specs.Contents.{Contents};
    ghost use Rattle.jm_store.specs.Housing.{FitsTogether};

    ghost Value = { Contents M.State };

    ghost view = { λ s. record {
      monitors = monitors_of s.monitors.slots;
      marks = s.marks.list;
      is_open = s.is_open;
      index = s.index;
      ending = s.ending;
    } };

    ghost invariant = { λ s. FitsTogether s.monitors.slots s.index.list s.domains.items s.is_open s.marks.spare };
}

impl<M: Monitor> Store<M> {
    /// The empty binding with a state that stands for the empty word, unless that is cut; and no mark.
    pub fn new(alloc: Global, rules: &M) -> Result<Store<M>, NoMemory>
        ensures stored { IfOk result (λ store. IsAtStart (M.meaning (M.definition rules.now)) (M.StandsFor rules.now)
            (stored_of store)) }
        ensures marks { IfOk result (λ store. store.marks ≡ []) }
        ensures closed { IfOk result (λ store. store.is_open ≡ false) }
        ensures fits { IfOk result (λ store. (dead : List Bool)
            → IsFitFor (M.meaning (M.definition rules.now)) (M.StandsFor rules.now) store dead) }
        ensures holds { IfOk result (λ store. (dead : List Bool)
            → IsStoreAfter (M.meaning (M.definition rules.now)) (M.StandsFor rules.now) [] dead store) }
    {
        let state = rules.begin()?;
        if rules.cut(&state, 0) {
            return Ok(Store::vacant(alloc));
        }
        let instance = Binding::empty();
        let letters = rules.ending(&state);
        let store = Store::with_first(alloc, Stored { instance, state }, letters)?;
        Ok(store)
    }

    /// No monitor and no mark.
    fn vacant(alloc: Global) -> Store<M>
        ensures monitors { result.monitors ≡ [] }
        ensures marks { result.marks ≡ [] }
        ensures closed { result.is_open ≡ false }
        ensures index { result.index.list ≡ [] }
        ensures fits { (dead : List Bool) → IsFit result dead }
    {
        Store {
            monitors: Monitors::new(alloc),
            index: Index::new(alloc),
            marks: Marks::new(alloc),
            domains: Vec::new(alloc),
            ending: [u32::MAX; 256],
            is_open: false,
            slots: Vec::new(alloc),
            moves: Vec::new(alloc),
            placed: Vec::new(alloc),
            shifts: Vec::new(alloc),
        }
    }

    /// One monitor, that of the empty binding, with the letters that end it; and no mark.
    fn with_first(
        alloc: Global,
        monitor: Stored<M::State>,
        letters: u32,
    ) -> Result<Store<M>, NoMemory>
        requires { monitor.instance ≡ empty }
        ensures ending { IfOk result (λ store. (e : ℕ) → ends_all store.ending e 0 ≡ true → IsBitSet letters e) }
        ensures stored { IfOk result (λ store. stored_of store ≡ monitor ∷ []) }
        ensures marks { IfOk result (λ store. store.marks ≡ []) }
        ensures closed { IfOk result (λ store. store.is_open ≡ false) }
        ensures fits { IfOk result (λ store. (dead : List Bool) → IsFit store dead) }
    {
        let mut index = Index::new(alloc);
        index.add(monitor.instance, 0)?;
        let mut domains = Vec::new(alloc);
        domains.push(monitor.instance.mask())?;
        let monitors = Monitors::with_first(alloc, monitor)?;
        let mut ending = [u32::MAX; 256];
        ending[0] = letters;
        Ok(Store {
            monitors,
            index,
            marks: Marks::new(alloc),
            domains,
            ending,
            is_open: false,
            slots: Vec::new(alloc),
            moves: Vec::new(alloc),
            placed: Vec::new(alloc),
            shifts: Vec::new(alloc),
        })
    }

    /// Takes the room for slots.
    fn take_slots(&mut self) -> Vec<usize>
        ensures { self.new ≡ self.old }
    {
        let alloc = *self.domains.allocator();
        mem::replace(&mut self.slots, Vec::new(alloc))
    }

    /// Gives the room for slots back.
    fn give_slots(&mut self, slots: Vec<usize>)
        ensures { self.new ≡ self.old }
    {
        self.slots = slots;
    }

    /// The stored bindings, in the order of bindings.
    pub fn stored(&self) -> Result<Vec<Binding>, NoMemory>
        ensures permutation { IfOk result (λ list.
            IsPermutation (map (λ s. s.instance) (stored_of self.now)) list.items) }
        ensures ordered { IfOk result (λ list. IsSortedBy (λ a b. is_lt (binding_cmp a b)) list.items) }
    {
        let mut list = self.counted_instances::<Brand>(Blank::new(1))?;
        list.sort_unstable_by(|a, b| a.cmp(b));
        Ok(list)
    }

    /// The stored bindings, in the order of their slots, with a counter made of a ledger of one part.
    fn counted_instances<L: Ledger>(&self, blank: Blank) -> Result<Vec<Binding>, NoMemory>
        requires name { blank.name ≡ L.name }
        requires parts { blank.parts ≡ L.parts }
        requires one { blank.parts ≡ 1 }
        ensures { IfOk result (λ list. list.items ≡ map (λ s. s.instance) (stored_of self.now)) }
    {
        let mut steps = Steps::<L>::new(blank);
        self.monitors.instances(&mut steps)
    }

    /// The marks, in the order of bindings.
    pub fn marks(&self) -> Result<Vec<Binding>, NoMemory>
        ensures permutation { IfOk result (λ list. IsPermutation self.now.marks list.items) }
        ensures ordered { IfOk result (λ list. IsSortedBy (λ a b. is_lt (binding_cmp a b)) list.items) }
        ensures distinct { AllPairs (λ a b. a ≢ b) self.now.marks }
    {
        let mut list = self.marks.to_list()?;
        list.sort_unstable_by(|a, b| a.cmp(b));
        Ok(list)
    }
}
