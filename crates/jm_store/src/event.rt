//! What an event makes of one stored monitor.
ghost use Rattle.std.specs.Prelude.{◌≡◌, ◌<◌, ℕ, List, IfOk, IsTrue, ◌↔◌, Contains, true, false, ◌==◌, bit_and};
ghost use Rattle.std.specs.Int.{bit_at};
ghost use Rattle.jm_model.specs.Bindings.{is_compatible, is_below, mask_of, join as union};
ghost use Rattle.jm_model.specs.Meanings.{IsHit};
ghost use Rattle.jm_marks.specs.Marks.{dead_mask_of};
ghost use Rattle.jm_monitors.specs.Steps.{IsResting, IsAliveState};
ghost use Rattle.jm_store.specs.Moves.{IsRead, is_asked, is_marked};

use crate::moves::{Move, is_resting};
use jm_marks::{Marks, dead_mask};
use jm_model::{Binding, Letter, Monitor, NoMemory};
use jm_monitors::Stored;
use jm_objects::Objects;

/// An event, as its caller asks for it, and the rules and objects that it is done with.
#[derive(Drop)]
pub struct Call<'a, M: Monitor> {
    pub rules: &'a M,
    pub objects: &'a Objects,
    pub letter: Letter,
    pub binding: &'a Binding,
}

/// Whether the binding of an event is a mark already.
#[derive(Clone, Copy)]
pub enum MarkStatus {
    /// It is one.
    Marked,
    /// It becomes one by the event.
    Unmarked,
}

impl MarkStatus {
    /// Whether the binding is a mark already.
    #[inline(always)]
    pub fn is_marked(self) -> bool
        ensures { result ≡ is_marked self }
    {
        match self {
            MarkStatus::Marked => true,
            MarkStatus::Unmarked => false,
        }
    }
}

/// An event as its caller asks for it, of which it is known whether its binding is a mark.
#[derive(Drop)]
pub(crate) struct KnownCall<'a, M: Monitor> {
    pub(crate) call: &'a Call<'a, M>,
    pub(crate) status: MarkStatus,
}

/// An event, and what it is worked out with.
#[derive(Drop)]
pub(crate) struct Event<'a, M: Monitor> {
    pub(crate) rules: &'a M,
    pub(crate) objects: &'a Objects,
    pub(crate) marks: &'a Marks,
    pub(crate) letter: Letter,
    pub(crate) binding: &'a Binding,
    /// Whether the binding is a mark.
    pub(crate) status: MarkStatus,
}

/// An event of whose monitors there is a list, and the list's place.
#[derive(Drop)]
pub(crate) struct ListedEvent<'a, M: Monitor> {
    pub(crate) event: Event<'a, M>,
    pub(crate) place: usize,
}

impl<M: Monitor> Event<'_, M> {
    /// Whether monitors with this set of parameters are read, where `ending` are letters that end all of these. Where
    /// the binding is a mark, it makes no new instance.
    pub(crate) fn asks(&self, ending: u32, domain: u8) -> bool
        requires { self.now.letter.0 < (M.meaning (M.definition self.now.rules.now)).letters }
        ensures { result ≡ is_asked (is_marked self.now.status) (bit_at ending self.now.letter.0 == 1)
            self.now.binding.now domain }
    {
        let mask = self.binding.mask();
        let _letters = self.rules.letters();
        mask & domain == mask || (!self.status.is_marked() && (ending >> self.letter.0) % 2 != 1)
    }

    /// What the monitor of a slot becomes, or the new instance that it makes, if it does either. One that is at rest is
    /// passed over.
    #[inline(always)]
    pub(crate) fn outcome(
        &self,
        slot: usize,
        base: &Stored<M::State>,
    ) -> Result<Option<Move<M::State>>, NoMemory>
        requires letter { self.now.letter.0 < (M.meaning (M.definition self.now.rules.now)).letters }
        requires known { IsTrue (is_marked self.now.status) ↔ Contains self.now.marks.now.list self.now.binding.now }
        requires compatible { IsTrue (is_compatible base.now.instance self.now.binding.now) }
        ensures { IfOk result
            (IsRead (M.meaning (M.definition self.now.rules.now)) (M.StandsFor self.now.rules.now)
            self.now.letter.0 self.now.binding.now self.now.objects.now self.now.marks.now.list slot
            base.now) }
    {
        let mask = self.binding.mask();
        if mask & base.instance.mask() == mask {
            if self.rests(base) {
                return Ok(None);
            }
            let state = self.rules.next(&base.state, self.letter)?;
            let dead = dead_mask(self.objects, &base.instance);
            let stays = !self.rules.cut(&state, dead);
            return Ok(Some(Move {
                slot: Some(slot),
                monitor: Stored {
                    instance: base.instance,
                    state,
                },
                stays,
            }));
        }
        let instance = base.instance.join(self.binding);
        if self.status.is_marked() || !self.marks.covers(&instance, &base.instance) {
            return Ok(None);
        }
        let state = self.rules.next(&base.state, self.letter)?;
        let dead = dead_mask(self.objects, &instance);
        let stays = !self.rules.cut(&state, dead);
        if self.can_never_fire(&state, stays) {
            return Ok(None);
        }
        Ok(Some(Move {
            slot: None,
            monitor: Stored { instance, state },
            stays,
        }))
    }

    /// Whether the event leaves a monitor as it is, if it moves it, and no dead object cuts it.
    #[inline(always)]
    fn rests(&self, base: &Stored<M::State>) -> bool
        requires { self.now.letter.0 < (M.meaning (M.definition self.now.rules.now)).letters }
        ensures resting { IsTrue result → IsResting (M.meaning (M.definition self.now.rules.now))
            (M.StandsFor self.now.rules.now) self.now.letter.0 base.now.state }
        ensures alive { IsTrue result → IsAliveState (M.meaning (M.definition self.now.rules.now))
            (M.StandsFor self.now.rules.now) base.now.state
            (dead_mask_of self.now.objects.now base.now.instance) }
    {
        is_resting(self.rules, &base.state, self.letter)
            && !self
                .rules
                .cut(&base.state, dead_mask(self.objects, &base.instance))
    }

    /// Whether a new instance can never fire: it hits nothing and is cut at once.
    fn can_never_fire(&self, state: &M::State, stays: bool) -> bool
        ensures quiet { IsTrue result → (w : List ℕ) → M.StandsFor self.now.rules.now state.now w
            → (k : ℕ) → IsHit (M.meaning (M.definition self.now.rules.now)) w k → ⊥ }
        ensures cut { IsTrue result → stays ≡ false }
    {
        !stays && self.rules.hits(state) == 0
    }
}
