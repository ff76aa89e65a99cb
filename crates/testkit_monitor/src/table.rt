use jm_model::{Letter, Monitor, NoMemory};
use std::cell::Cell;
use std::marker::Model;

/// A table of states, of which 0 is the start. It has a mask of parameters for each of three letters, four
/// places for each state, and the mask of the handlers that each state hits.
#[derive(Drop)]
pub struct Table {
    params: [u8; 3],
    places: [u16; 20],
    hits: [u16; 5],
    must_bind: u8,
    /// How many calls of `next` there are up to the one that answers NoMemory; 0: none does.
    left: Cell<u32>,
}

impl Model for Table {
    ghost use Rattle.std.specs.Prelude.{◌≡◌, length};
    ghost use Rattle.testkit_monitor.specs.Tables.{Table as Meant};

    ghost Value = { Meant };

    ghost view = { λ t. record { params = t.params; places = t.places; hits = t.hits; must_bind = t.must_bind } };

    ghost invariant = { λ t. length t.params ≡ 3 };
}

/// A state, and whether a letter led to it.
#[derive(Clone, Copy)]
pub struct Configuration {
    state: u16,
    moved: bool,
}

impl Table {
    ghost use Rattle.std.specs.Prelude.{ℕ, ◌≡◌, ◌↔◌, IsTrue, slice_index, length};
    ghost use Rattle.jm_model.specs.Meanings.{IsAvailable};
    ghost use Rattle.testkit_monitor.specs.Tables.{next_state, table_meaning};

    /// UnsafeIter: create of both parameters, update of the first and next of the second, where
    /// `create next* update+ next` matches. The call of `next` with this number, from 1, is refused memory; 0: none is.
    pub fn unsafe_iter(left: u32) -> Table {
        Table {
            params: [3, 1, 2],
            places: [1, 4, 4, 0, 4, 2, 1, 0, 4, 2, 3, 0, 4, 4, 4, 0, 4, 4, 4, 0],
            hits: [0, 0, 0, 1, 0],
            must_bind: 0,
            left: Cell::new(left),
        }
    }

    /// Tick: the first letter binds the parameter, and the two others bind none. Every word but the empty one matches.
    pub fn tick(must_bind: u8) -> Table {
        Table {
            params: [1, 0, 0],
            places: [1, 1, 1, 0, 1, 1, 1, 0, 0, 0, 0, 0, 0, 0, 0, 0, 0, 0, 0, 0],
            hits: [0, 1, 0, 0, 0],
            must_bind,
            left: Cell::new(0),
        }
    }

    /// Doors and keys: an unlocking of both parameters, a locking of the first and a pass of the second. The handler is
    /// hit by a pass after an unlocking, with no locking between.
    pub fn doors() -> Table {
        Table {
            params: [3, 1, 2],
            places: [1, 0, 0, 0, 1, 0, 2, 0, 1, 0, 2, 0, 0, 0, 0, 0, 0, 0, 0, 0],
            hits: [0, 0, 1, 0, 0],
            must_bind: 0,
            left: Cell::new(0),
        }
    }

    /// The masks of the letters.
    pub fn params(&self) -> [u8; 3]
        ensures value { result ≡ self.now.params }
        ensures three { length self.now.params ≡ 3 }
    {
        self.params
    }

    /// Whether each letter has a dead parameter.
    fn has_no_letter(&self, dead: u8) -> bool
        ensures { IsTrue result ↔ ((e : ℕ) → IsAvailable (table_meaning self.now) dead e → ⊥) }
    {
        let params: &[u8] = &self.params;
        params.iter().all(|mask| mask & dead != 0)
    }

    /// The state that a letter leads to.
    fn next_state(&self, state: u16, letter: Letter) -> u16
        ensures { result ≡ next_state self.now state letter.0 }
    {
        let place = 4 * usize::from(state) + usize::from(letter.0);
        match self.places.get(place) {
            Some(next) => *next,
            None => 0,
        }
    }

    /// The handlers that a state hits.
    fn hits_of(&self, state: u16) -> u16
        ensures { result ≡ slice_index self.now.hits state }
    {
        match self.hits.get(usize::from(state)) {
            Some(hits) => *hits,
            None => 0,
        }
    }
}

impl Monitor for Table {
    ghost use Rattle.std.specs.Prelude.{◌≡◌};
    ghost use Rattle.testkit_monitor.specs.Tables.{table_meaning, state_from, has_letter};

    type State = Configuration;

    type Definition = Table;

    ghost definition = { λ t. t };

    ghost meaning = { table_meaning };

    ghost StandsFor = { λ t s w. (s.state ≡ state_from t 0 w) × (s.moved ≡ has_letter w) };

    ghost HasNumber = { λ m s n. ⊥ };

    fn letters(&self) -> u8 {
        let params: &[u8] = &self.params;
        params.len() as u8
    }

    fn params(&self, letter: Letter) -> u8 {
        self.params[usize::from(letter.0)]
    }

    fn must_bind(&self) -> u8 {
        self.must_bind
    }

    fn begin(&self) -> Result<Configuration, NoMemory> {
        Ok(Configuration {
            state: 0,
            moved: false,
        })
    }

    fn copy(&self, state: &Configuration) -> Result<Configuration, NoMemory> {
        Ok(*state)
    }

    fn next(&self, state: &Configuration, letter: Letter) -> Result<Configuration, NoMemory> {
        let left = self.left.get();
        self.left.set(left.wrapping_sub(1));
        if left == 1 {
            return Err(NoMemory);
        }
        Ok(Configuration {
            state: self.next_state(state.state, letter),
            moved: true,
        })
    }

    fn hits(&self, state: &Configuration) -> u16 {
        if !state.moved {
            return 0;
        }
        self.hits_of(state.state)
    }

    fn cut(&self, state: &Configuration, dead: u8) -> bool {
        let _state = *state;
        self.has_no_letter(dead)
    }

    fn renumber(&self, state: &mut Configuration, number: u16) {
        let _state = state;
        let _number = number;
    }
}
