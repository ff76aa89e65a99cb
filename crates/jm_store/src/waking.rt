//! How monitors come into the lists, and leave them.
ghost use Rattle.std.specs.Prelude.{◌≡◌, ℕ, Bool, List, Option, None, Contains};
ghost use Rattle.jm_awake.specs.Awake.{Occupants, AreFound, AreStill};
ghost use Rattle.jm_monitors.specs.declared.stored.Stored.{Stored as Kept};
ghost use Rattle.jm_store.specs.declared.moves.Move.{Move as Change};
ghost use Rattle.jm_store.specs.Moves.{after_move, after_moves, AreApart};
ghost use Rattle.jm_store.specs.Listed.{Comes, IsInAll, IsFor, KeepListed};

use crate::moves::Move;
use jm_awake::Awake;
use jm_model::{Binding, Monitor};

/// Puts a slot into all lists whose bindings lie below the instance of its monitor, which comes or moved.
#[inline(always)]
pub(crate) fn wake(awake: &mut Awake, slot: usize, instance: &Binding)
    ensures sound { (o : Occupants) → Comes o awake.old awake.new slot instance.now }
    ensures still { AreStill None awake.old awake.new }
    ensures told { AreFound awake.old → IsInAll awake.new slot instance.now }
{
    if awake.letters() != 0 {
        wake_listed(awake, slot, instance);
    }
}

/// Puts a slot into all lists whose bindings lie below the instance of its monitor, where there are lists, unless it is
/// in the lists of each letter.
#[inline(never)]
fn wake_listed(awake: &mut Awake, slot: usize, instance: &Binding)
    ensures sound { (o : Occupants) → Comes o awake.old awake.new slot instance.now }
    ensures still { AreStill None awake.old awake.new }
    ensures told { AreFound awake.old → IsInAll awake.new slot instance.now }
{
    if awake.wants(slot, 0) {
        awake.wake(slot, instance, 0, false, true);
    }
}

/// Takes in what a move makes of the monitor of its slot.
#[inline(always)]
pub(crate) fn follow<M: Monitor>(awake: &mut Awake, step: &Move<M::State>)
    ensures { (rules : M) (dead : List Bool) (monitors : List (Option (Kept M.State))) → IsFor monitors step.now
        → KeepListed (M.meaning (M.definition rules)) (M.StandsFor rules) dead monitors
        (after_move step.now monitors) awake.old awake.new }
{
    let Some(slot) = step.slot else { return };
    if step.stays {
        wake(awake, slot, &step.monitor.instance);
    } else {
        awake.leave(slot);
    }
}

/// Takes in what some moves make of the monitors of their slots.
pub(crate) fn follow_all<M: Monitor>(awake: &mut Awake, moves: &[Move<M::State>])
    ensures { (rules : M) (dead : List Bool) (monitors : List (Option (Kept M.State))) → AreApart moves.now
        → ((move : Change M.State) → Contains moves.now move → IsFor monitors move)
        → KeepListed (M.meaning (M.definition rules)) (M.StandsFor rules) dead monitors
        (after_moves moves.now monitors) awake.old awake.new }
{
    let mut left = moves.len();
    while left > 0 {
        left -= 1;
        follow::<M>(awake, &moves[left]);
    }
}
