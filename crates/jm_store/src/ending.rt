//! Letters that end monitors: an event with such a letter makes no new instance of them.
//!
//! They are kept for each set of parameters, so that an event needn't read the monitors with a set all of which it
//! ends.
ghost use Rattle.std.specs.Prelude.{◌≡◌, ◌<◌, ℕ, true, length, slice_index_or, IsBitSet};
ghost use Rattle.jm_store.specs.Moves.{ends_all, EndsFewer, AreEnding, reached_by};

use crate::moves::Move;
use jm_model::Monitor;

/// Keeps for a set of parameters those of its letters that are among these.
pub(crate) fn end_fewer(ending: &mut [u32; 256], domain: u8, letters: u32)
    ensures fewer { EndsFewer ending.old ending.new }
    ensures among { (e : ℕ) → ends_all ending.new e domain ≡ true → IsBitSet letters e }
{
    let kept = ending[domain as usize];
    ending[domain as usize] = kept & letters;
}

/// Keeps for the sets of parameters of the moves those letters that end the moved monitors.
pub(crate) fn end_fewer_by<M: Monitor>(ending: &mut [u32; 256], rules: &M, moves: &[Move<M::State>])
    ensures fewer { EndsFewer ending.old ending.new }
    ensures ended { AreEnding (M.meaning (M.definition rules.now)) (M.StandsFor rules.now) ending.new
        (reached_by moves.now) }
{
    for step in moves {
        let letters = rules.ending(&step.monitor.state);
        end_fewer(ending, step.monitor.instance.mask(), letters);
    }
}
