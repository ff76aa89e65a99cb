//! A monitor whose steps wait for those of another.
ghost use Rattle.std.specs.Prelude.{◌≢◌, ◌↔◌, IsTrue, bit_and};

use crate::waiting::comes;
use jm_model::{Letter, Monitor, NoMemory};
use std::alloc::Global;
use std::sync::Arc;
use std::sync::atomic::{AtomicU64, Ordering};

/// `next` sets a flag of its own, and then looks for the other's. Where that doesn't come, it is counted as missed.
#[derive(Drop)]
pub(crate) struct Meet {
    pub(crate) own: Arc<AtomicU64, Global>,
    pub(crate) other: Arc<AtomicU64, Global>,
    pub(crate) missed: Arc<AtomicU64, Global>,
}

/// Whether a letter came.
#[derive(Clone, Copy)]
pub(crate) struct Met {
    moved: bool,
}

/// Whether a set of parameters has the first.
fn has_first(mask: u8) -> bool
    ensures { IsTrue result ↔ (bit_and 1 mask ≢ 0) }
{
    1 & mask != 0
}

impl Monitor for Meet {
    ghost use Rattle.std.specs.Prelude.{◌≡◌};
    ghost use Rattle.test_runner.specs.Meets.{meet_meaning};
    ghost use Rattle.testkit_monitor.specs.Tables.{has_letter};

    type State = Met;

    type Definition = ();

    ghost definition = { λ m. tt };

    ghost meaning = { λ d. meet_meaning };

    ghost StandsFor = { λ m s w. s.moved ≡ has_letter w };

    ghost HasNumber = { λ m s n. ⊥ };

    fn letters(&self) -> u8 {
        1
    }

    fn params(&self, letter: Letter) -> u8 {
        let _letter = letter;
        1
    }

    fn must_bind(&self) -> u8 {
        0
    }

    fn begin(&self) -> Result<Met, NoMemory> {
        Ok(Met { moved: false })
    }

    fn copy(&self, state: &Met) -> Result<Met, NoMemory> {
        Ok(*state)
    }

    fn next(&self, state: &Met, letter: Letter) -> Result<Met, NoMemory> {
        let _state = *state;
        let _letter = letter;
        self.own.store(1, Ordering::SeqCst);
        if !comes(&self.other) {
            self.missed.fetch_add(1, Ordering::SeqCst);
        }
        Ok(Met { moved: true })
    }

    fn hits(&self, state: &Met) -> u16 {
        if !state.moved {
            return 0;
        }
        1
    }

    fn cut(&self, state: &Met, dead: u8) -> bool {
        let _state = *state;
        has_first(dead)
    }

    fn renumber(&self, state: &mut Met, number: u16) {
        let _state = state;
        let _number = number;
    }
}
