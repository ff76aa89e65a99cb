//! How a plan is carried out.
ghost use Rattle.std.specs.Prelude.{◌≡◌, ◌≢◌, ℕ, ◌<◌, ◌≤◌, AllPairs, List, Bool, [], ◌∷◌, ◌++◌, true, false, Contains, IsTrue, Some, length};
ghost use Rattle.jm_semantics.specs.Traces.{ParametricEvent};
ghost use Rattle.jm_index.specs.Index.{Pair, AreBelow, IsFitting};
ghost use Rattle.jm_monitors.specs.Steps.{AreMarksAfter, NoneCutAbove};
ghost use Rattle.jm_store.specs.Moves.{is_marked};
ghost use Rattle.jm_store.specs.Contents.{stored_of, IsFit, IsStoreAfter, IsPlanFor, IsPlanOf, IsCarriedOut, IsMoveDone};

use super::Store;
use crate::event::MarkStatus;
use crate::moves::{Move, Plan};
use jm_marks::Marks;
use jm_model::{Binding, Firings, Monitor};

impl<M: Monitor> Store<M> {
    /// Carries a plan out, and gives its answer twice. It takes no memory.
    pub fn commit(&mut self, plan: Plan<M::State>) -> (Firings, Firings)
        requires open { self.old.is_open ≡ true }
        requires plan { IsPlanFor self.old plan }
        ensures carried { IsCarriedOut self.old self.new plan }
        ensures closed { self.new.is_open ≡ false }
        ensures fits { (dead : List Bool) → IsFit self.old dead → AreBelow (length dead) plan.binding
            → IsFit self.new dead }
        ensures works { (rules : M) (trace : List ParametricEvent) (dead : List Bool) (letter : ℕ)
            → IsPlanOf (M.meaning (M.definition rules)) (M.StandsFor rules) trace dead letter self.old plan
            → IsStoreAfter (M.meaning (M.definition rules)) (M.StandsFor rules)
            (trace ++ record { letter = letter; binding = plan.binding } ∷ []) dead self.new
            × NoneCutAbove (M.meaning (M.definition rules)) (M.StandsFor rules) plan.binding dead (stored_of self.new) }
        ensures answer { result.0 ≡ plan.answer }
        ensures copy { result.1 ≡ plan.answer }
    {
        let Plan {
            binding,
            status,
            mut moves,
            met: _,
            answer,
            copy,
        } = plan;
        while let Some(step) = moves.pop() {
            self.carry_out(step);
        }
        add_mark(&mut self.marks, binding, status);
        self.is_open = false;
        self.moves = moves;
        (answer, copy)
    }

    /// Carries a move out.
    pub(super) fn carry_out(&mut self, step: Move<M::State>)
        requires { (k : ℕ) → step.slot ≡ Some k
            → Contains self.old.index.list (record { binding = step.monitor.instance; slot = k }) }
        ensures done { IsMoveDone step self.old self.new }
        ensures fits { (dead : List Bool) → IsFitting self.old.index dead → IsFitting self.new.index dead }
        ensures bindings { AllPairs (λ a b. a.binding ≢ b.binding) self.old.index.list }
        ensures slots { AllPairs (λ a b. a.slot ≢ b.slot) self.old.index.list }
        ensures within { (pair : Pair) → Contains self.old.index.list pair → pair.slot < length self.old.monitors }
    {
        let _monitors = &self.monitors;
        let Some(slot) = step.slot else { return };
        if step.stays {
            self.monitors.put(slot, step.monitor);
        } else {
            self.index.remove(&step.monitor.instance);
            self.monitors.release(slot);
        }
    }
}

/// Adds the binding of an event to the marks, where it isn't known to be one. It takes no memory.
fn add_mark(marks: &mut Marks, binding: Binding, status: MarkStatus)
    requires room { 1 ≤ marks.old.spare }
    requires known { IsTrue (is_marked status) → Contains marks.old.list binding }
    ensures { AreMarksAfter binding marks.old.list marks.new.list }
{
    if !status.is_marked() {
        marks.add(binding);
    }
}
