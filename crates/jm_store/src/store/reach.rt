//! How an event is worked out: which monitors it reaches, and what becomes of them.
ghost use Rattle.std.specs.Prelude.{◌≡◌, ℕ, ◌+◌, ◌<◌, ◌≤◌, ◌↔◌, ◌++◌, List, [], false, Contains, IfOk, OnOk, IsTrue, Some, length, count_by};
ghost use Rattle.jm_model.specs.Bindings.{empty, is_compatible};
ghost use Rattle.jm_index.specs.Index.{AreLive, IsFitting};
ghost use Rattle.jm_store.specs.Slots.{monitor_at};
ghost use Rattle.jm_store.specs.Moves.{AreGiven, IsReadAt, IsCompatibleAt, AreMovesRead, asks_by, is_marked, EndsFewer, AreEnding, reached_by};
ghost use Rattle.jm_store.specs.Contents.{stored_of, with_ending};
ghost use Rattle.jm_store.specs.Plans.{CanPlan, Plans};

use super::Store;
use crate::ending::end_fewer_by;
use crate::event::{Call, Event, MarkStatus};
use crate::moves::{Move, Plan};
use crate::report::report;
use jm_model::{Binding, Letter, Monitor, NoMemory, Steps};
use jm_objects::Objects;
use std::mem;
use std::sync::ledger::Ledger;

/// A pass has room for this number of slots, and for one for each few slots that there are, so that it needn't look at
/// all of them where few are to be looked at.
const MANY: usize = 64;

const FEW: usize = 4;

/// Makes the room that a pass has for slots, by how many there are.
pub(super) fn make_room(slots: &mut Vec<usize>, count: usize) -> Result<(), NoMemory>
    ensures { slots.new.items ≡ slots.old.items }
{
    let room = count / FEW + MANY;
    if slots.capacity() < room {
        slots.reserve(room)?;
    }
    Ok(())
}

impl<M: Monitor> Store<M> {
    /// Works out an event, and makes all growths. The contents are as before. Only monitors that are compatible with
    /// the binding are read, each once.
    pub fn plan<L: Ledger>(
        &mut self,
        rules: &M,
        objects: &Objects,
        letter: Letter,
        binding: &Binding,
        steps: &mut Steps<L>,
    ) -> Result<Plan<M::State>, NoMemory>
        requires { CanPlan (M.meaning (M.definition rules.now)) objects.now letter.0 binding.now self.old }
        ensures plans { Plans (M.meaning (M.definition rules.now)) (M.StandsFor rules.now) objects.now letter.0
            binding.now self.old self.new result }
        ensures steps { steps.new ≤ steps.old + count_by (λ s. is_compatible s.instance binding.now)
            (stored_of self.old) }
    {
        let status = self.status_of(binding);
        let call = Call {
            rules,
            objects,
            letter,
            binding,
        };
        self.plan_as(&call, status, steps)
    }

    /// Works out an event as `plan` does, where it is known whether the binding is a mark.
    pub fn plan_as<L: Ledger>(
        &mut self,
        call: &Call<'_, M>,
        status: MarkStatus,
        steps: &mut Steps<L>,
    ) -> Result<Plan<M::State>, NoMemory>
        requires can { CanPlan (M.meaning (M.definition call.now.rules.now)) call.now.objects.now call.now.letter.0
            call.now.binding.now self.old }
        requires known { IsTrue (is_marked status) ↔ Contains self.old.marks call.now.binding.now }
        ensures plans { Plans (M.meaning (M.definition call.now.rules.now)) (M.StandsFor call.now.rules.now)
            call.now.objects.now call.now.letter.0 call.now.binding.now self.old self.new result }
        ensures steps { steps.new ≤ steps.old + count_by (λ s. is_compatible s.instance call.now.binding.now)
            (stored_of self.old) }
    {
        let moves = self.take_moves();
        let mut slots = self.take_slots();
        let event = Event {
            rules: call.rules,
            objects: call.objects,
            marks: &self.marks,
            letter: call.letter,
            binding: call.binding,
            status,
        };
        let reached = self.reach(&event, &mut slots, moves, steps);
        self.give_slots(slots);
        let (moves, met) = reached?;
        self.plan_of(call, status, moves, met)
    }

    /// Opens the plan of an event that makes these moves, and met the given number of monitors.
    #[inline(always)]
    #[tactic(auto, using(crate::proofs::PlanLemmas::plans_untouched))]
    pub(super) fn plan_of(
        &mut self,
        call: &Call<'_, M>,
        status: MarkStatus,
        moves: Vec<Move<M::State>>,
        met: usize,
    ) -> Result<Plan<M::State>, NoMemory>
        requires can { CanPlan (M.meaning (M.definition call.now.rules.now)) call.now.objects.now call.now.letter.0
            call.now.binding.now self.old }
        requires known { IsTrue (is_marked status) ↔ Contains self.old.marks call.now.binding.now }
        requires read { AreMovesRead (M.meaning (M.definition call.now.rules.now)) (M.StandsFor call.now.rules.now)
            call.now.letter.0 call.now.binding.now call.now.objects.now self.old.marks
            (asks_by (is_marked status) self.old.ending call.now.letter.0 call.now.binding.now)
            self.old.monitors moves.items }
        ensures { Plans (M.meaning (M.definition call.now.rules.now)) (M.StandsFor call.now.rules.now)
            call.now.objects.now call.now.letter.0 call.now.binding.now self.old self.new result }
    {
        let answer = report(*self.domains.allocator(), call.rules, &moves)?;
        let copy = answer.copy()?;
        let moves = self.open_plan(moves)?;
        self.end_fewer(call.rules, &moves);
        Ok(Plan {
            binding: *call.binding,
            status,
            moves,
            met,
            answer,
            copy,
        })
    }

    /// Takes the room for moves, which is empty then.
    pub(super) fn take_moves(&mut self) -> Vec<Move<M::State>>
        ensures unchanged { self.new ≡ self.old }
        ensures none { result.items ≡ [] }
    {
        let alloc = *self.domains.allocator();
        let mut moves = mem::replace(&mut self.moves, Vec::new(alloc));
        moves.clear();
        moves
    }

    /// Gives the room for moves back.
    pub(super) fn give_moves(&mut self, moves: Vec<Move<M::State>>)
        ensures { self.new ≡ self.old }
    {
        self.moves = moves;
    }

    /// What the event makes of the stored monitors, and how many it met. The slots are room that is lent.
    fn reach<L: Ledger>(
        &self,
        event: &Event<'_, M>,
        slots: &mut Vec<usize>,
        mut moves: Vec<Move<M::State>>,
        steps: &mut Steps<L>,
    ) -> Result<(Vec<Move<M::State>>, usize), NoMemory>
        requires closed { self.now.is_open ≡ false }
        requires letter { event.now.letter.0 < (M.meaning (M.definition event.now.rules.now)).letters }
        requires known { IsTrue (is_marked event.now.status) ↔ Contains event.now.marks.now.list event.now.binding.now }
        requires fits { IsFitting self.now.index event.now.objects.now }
        requires live { AreLive event.now.objects.now event.now.binding.now }
        requires none { moves.items ≡ [] }
        ensures moves { IfOk result (λ reached. AreMovesRead (M.meaning (M.definition event.now.rules.now))
            (M.StandsFor event.now.rules.now) event.now.letter.0 event.now.binding.now
            event.now.objects.now event.now.marks.now.list
            (asks_by (is_marked event.now.status) self.now.ending event.now.letter.0 event.now.binding.now)
            self.now.monitors reached.0.items) }
        ensures steps { steps.new ≤ steps.old + count_by (λ s. is_compatible s.instance event.now.binding.now)
            (stored_of self.now) }
    {
        slots.clear();
        make_room(slots, self.monitors.count_slots())?;
        let mut met = 0_usize;
        for domain in &self.domains {
            if event.asks(self.ending[*domain as usize], *domain) {
                self.index
                    .compatible_into(event.objects, *domain, event.binding, slots)?;
                met = met.saturating_add(slots.len());
                self.reach_slots(event, slots.as_slice(), &mut moves, steps)?;
            }
        }
        Ok((moves, met))
    }

    /// What it makes of those in some slots.
    fn reach_slots<L: Ledger>(
        &self,
        event: &Event<'_, M>,
        slots: &[usize],
        moves: &mut Vec<Move<M::State>>,
        steps: &mut Steps<L>,
    ) -> Result<(), NoMemory>
        requires letter { event.now.letter.0 < (M.meaning (M.definition event.now.rules.now)).letters }
        requires known { IsTrue (is_marked event.now.status) ↔ Contains event.now.marks.now.list event.now.binding.now }
        requires compatible { (k : ℕ) → Contains slots.now k
            → IsCompatibleAt event.now.binding.now (monitor_at self.now.monitors k) }
        ensures moves { OnOk result ((slots_before : List ℕ)
            → AreGiven (IsReadAt (M.meaning (M.definition event.now.rules.now))
            (M.StandsFor event.now.rules.now) event.now.letter.0 event.now.binding.now
            event.now.objects.now event.now.marks.now.list self.now.monitors) slots_before moves.old.items
            → AreGiven (IsReadAt (M.meaning (M.definition event.now.rules.now))
            (M.StandsFor event.now.rules.now) event.now.letter.0 event.now.binding.now
            event.now.objects.now event.now.marks.now.list self.now.monitors)
            (slots_before ++ slots.now) moves.new.items) }
        ensures steps { steps.new ≤ steps.old + length slots.now }
    {
        for slot in slots {
            if let Some(base) = self.monitors.lend(*slot, steps) {
                if let Some(step) = event.outcome(*slot, base)? {
                    moves.push(step)?;
                }
            }
        }
        Ok(())
    }

    /// Keeps of the letters that end monitors those that end the moved ones too.
    pub(super) fn end_fewer(&mut self, rules: &M, moves: &[Move<M::State>])
        ensures unchanged { self.new ≡ with_ending self.old self.new.ending }
        ensures fewer { EndsFewer self.old.ending self.new.ending }
        ensures ended { AreEnding (M.meaning (M.definition rules.now)) (M.StandsFor rules.now) self.new.ending
            (reached_by moves.now) }
    {
        end_fewer_by(&mut self.ending, rules, moves);
    }
}
