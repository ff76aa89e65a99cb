//! What an event comes to, before it is carried out.
ghost use Rattle.std.specs.Prelude.{◌≡◌, ◌<◌, IsTrue, None, Contains};
ghost use Rattle.jm_monitors.specs.Steps.{IsResting};
ghost use Rattle.jm_store.specs.declared.moves.Move.{Move as Change};

use crate::event::MarkStatus;
use jm_model::{Binding, Firings, Letter, Monitor};
use jm_monitors::Stored;

/// Of this number of monitors a list is made whatever the event's binding. An event that meets more of one set of
/// parameters, and has no list, is worked out by a plan.
pub(crate) const MANY: usize = 8;

/// What a monitor that an event reaches becomes.
#[derive(Drop)]
pub struct Move<S> {
    /// Its slot. A new instance has none until it is placed.
    pub(crate) slot: Option<usize>,
    pub(crate) monitor: Stored<S>,
    /// Whether it is stored afterwards.
    pub(crate) stays: bool,
}

/// An event that was worked out: what becomes of the monitors, and the answer, twice.
#[derive(Drop)]
pub struct Plan<S> {
    pub(crate) binding: Binding,
    /// Whether the binding is a mark already.
    pub(crate) status: MarkStatus,
    pub(crate) moves: Vec<Move<S>>,
    /// How many monitors were met, those at rest among them.
    pub(crate) met: usize,
    pub(crate) answer: Firings,
    pub(crate) copy: Firings,
}

impl<S> Plan<S> {
    /// Whether a list of the monitors that the event may change is worth its while. Lists are found by the first object
    /// of their binding, so that of one with several takes the place of others; it has to be of many monitors.
    pub fn is_worth_listing(&self) -> bool {
        let mask = self.binding.mask();
        mask & mask.wrapping_sub(1) == 0 || self.met >= MANY
    }
}

/// Whether a letter leaves a state as it is, and the state hits nothing.
#[inline(always)]
pub(crate) fn is_resting<M: Monitor>(rules: &M, state: &M::State, letter: Letter) -> bool
    requires { letter.0 < (M.meaning (M.definition rules.now)).letters }
    ensures { IsTrue result → IsResting (M.meaning (M.definition rules.now))
        (M.StandsFor rules.now) letter.0 state.now }
{
    let _letters = rules.letters();
    (rules.idle(state) >> letter.0) % 2 == 1 && rules.hits(state) == 0
}

/// Whether each of the moves has a slot.
pub(crate) fn have_slots<S>(moves: &[Move<S>]) -> bool
    ensures { IsTrue result → (move : Change S) → Contains moves.now move → move.slot ≡ None → ⊥ }
{
    for step in moves {
        if step.slot.is_none() {
            return false;
        }
    }
    true
}
