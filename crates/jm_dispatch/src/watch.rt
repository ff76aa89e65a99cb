//! The dispatcher.
ghost use Rattle.std.specs.Prelude.{◌≡◌, ◌<◌, ◌≤◌, All, Any, IfOk, OnErr, vec_len};
ghost use mathlib.Core.List.{IsPrefix};
ghost use Rattle.jm_model.specs.declared.step.Step.TheVariants.{Death, Pass};
ghost use Rattle.jm_semantics.specs.Legality.{IsLegal};
ghost use Rattle.jm_core.specs.Cores.{FitsHistory};
ghost use Rattle.jm_core.specs.Steps.{IsFitStep};
ghost use Rattle.jm_turn.specs.Lists.{entries_by, longer_of};
ghost use Rattle.jm_turn.specs.Seats.{AreNewcomers, HaveOneHistory, IsNoteOf, IsSeatOf, note_of, own_entries};
ghost use Rattle.jm_dispatch.specs.Masks.{AreMasksOf};
ghost use Rattle.jm_dispatch.specs.Steps.{AreArguments, Emitted, Stepped, caller_of};

use crate::acts::{Answer, DoStep};
use crate::watched::Watched;
use arrayvec::ArrayVec;
use jm_core::Prop;
use jm_history::Node;
use jm_model::{Binding, Letter, Monitor, NoMemory, Step};
use jm_turn::Lock;
use std::alloc::Global;
use std::marker::Model;
use std::sync::Wait;

/// A caller's seat at a watch: a number, and the entries that it has seen, its own among them.
pub type Seat<M> = jm_turn::Seat<Watched<M>>;

/// What a seat had seen, for another seat of the same watch to hear.
pub type Note<M> = jm_turn::Note<Watched<M>>;

/// One specification's dispatcher: a turn lock round its core. It is shared by reference, and each caller has a seat of
/// its own.
#[derive(Drop)]
pub struct Watch<M: Monitor> {
    lock: Lock<Watched<M>>,
    // The parameters of each letter: the rules themselves lie in the lock.
    masks: [u8; 32],
}

impl<M: Monitor> Model for Watch<M> {
    ghost use Rattle.jm_turn.specs.Seats.{LockModel};
    ghost use Rattle.jm_dispatch.specs.Masks.{AreMasksOf};
    ghost use Rattle.jm_dispatch.specs.declared.watched.Fixed.{Fixed};

    ghost Value = { LockModel (Fixed M.Definition) };

    ghost view = { λ w. w.lock };

    ghost invariant = { λ w. AreMasksOf (M.meaning w.lock.fixed.definition) w.masks };
}

/// The parameters of each letter.
fn masks_of<M: Monitor>(rules: &M) -> [u8; 32]
    ensures { AreMasksOf (M.meaning (M.definition rules.now)) result }
{
    let mut masks = [0; 32];
    for e in 0..rules.letters() {
        masks[e as usize] = rules.params(Letter(e));
    }
    masks
}

impl<M: Monitor> Watch<M> {
    /// A watch over a core without history, all of whose objects live, and its seats, numbered from 0 in this order.
    /// There are 1 to 65,536 of them.
    pub fn new(
        alloc: Global,
        rules: M,
        objects: u32,
        seats: u32,
    ) -> Result<(Watch<M>, Vec<Seat<M>>), NoMemory>
        requires seats { (1 ≤ seats) × (seats ≤ 65536) }
        ensures fixed { IfOk result (λ r. r.0.fixed ≡ record { definition = M.definition rules; objects = objects }) }
        ensures count { IfOk result (λ r. (r.0.seats ≡ seats) × (vec_len r.1 ≡ seats)) }
        ensures seats { IfOk result (λ r. AreNewcomers r.0 r.1.items) }
    {
        let masks = masks_of(&rules);
        let prop = Box::new(alloc, Prop::new(alloc, rules, objects)?)?;
        let (lock, seats) = Lock::new(alloc, Watched { prop }, seats)?;
        Ok((Watch { lock, masks }, seats))
    }

    /// Waits for its turn and does an event of the letter, with one object for each of its parameters, in their order.
    /// The answer has the outcome of `Prop::event`: out of memory in the turn is an entry with NoMemory.
    ///
    /// Err means that no step was made.
    pub fn emit(
        &self,
        rt: &impl Wait,
        alloc: Global,
        seat: &mut Seat<M>,
        line: u32,
        letter: Letter,
        args: &ArrayVec<u32, 8>,
    ) -> Result<Answer, NoMemory>
        requires seat { IsSeatOf self.now seat.old }
        requires letter { letter.0 < (M.meaning self.now.fixed.definition).letters }
        requires args { AreArguments
            (M.meaning self.now.fixed.definition) self.now.fixed.objects letter.0 args.now.items }
        ensures ok { IfOk result (λ answer. Emitted
            (M.meaning self.now.fixed.definition) line letter args.now.items answer seat.old seat.new) }
        ensures err { OnErr result (seat.new ≡ seat.old) }
    {
        let binding = Binding::of(self.params(letter), args.as_slice());
        self.step(rt, alloc, seat, line, Step::Event { letter, binding })
    }

    /// Waits for its turn and lets the object die. The outcome is that of `Prop::death`. Err means that no step was
    /// made.
    pub fn death(
        &self,
        rt: &impl Wait,
        alloc: Global,
        seat: &mut Seat<M>,
        line: u32,
        object: u32,
    ) -> Result<Answer, NoMemory>
        requires seat { IsSeatOf self.now seat.old }
        requires object { object < self.now.fixed.objects }
        ensures ok { IfOk result (λ answer. Stepped (M.meaning self.now.fixed.definition) line
            (Death object) answer seat.old seat.new) }
        ensures err { OnErr result (seat.new ≡ seat.old) }
    {
        self.step(rt, alloc, seat, line, Step::Death { object })
    }

    /// Waits for its turn and does a disposal pass. The outcome is that of `Prop::pass`. Err means that no step was
    /// made.
    pub fn pass(
        &self,
        rt: &impl Wait,
        alloc: Global,
        seat: &mut Seat<M>,
        line: u32,
    ) -> Result<Answer, NoMemory>
        requires seat { IsSeatOf self.now seat.old }
        ensures ok { IfOk result (λ answer. Stepped
            (M.meaning self.now.fixed.definition) line Pass answer seat.old seat.new) }
        ensures err { OnErr result (seat.new ≡ seat.old) }
    {
        self.step(rt, alloc, seat, line, Step::Pass)
    }

    /// Waits for its turn and does a step of any kind, as `emit`, `death` and `pass` do. Err means that no step was
    /// made.
    pub fn step(
        &self,
        rt: &impl Wait,
        alloc: Global,
        seat: &mut Seat<M>,
        line: u32,
        step: Step,
    ) -> Result<Answer, NoMemory>
        requires seat { IsSeatOf self.now seat.old }
        requires step { IsFitStep (M.meaning self.now.fixed.definition) self.now.fixed.objects step }
        ensures ok { IfOk result (λ answer. Stepped
            (M.meaning self.now.fixed.definition) line step answer seat.old seat.new) }
        ensures err { OnErr result (seat.new ≡ seat.old) }
    {
        let node = Node::new(alloc, seat.number(), line, step)?;
        Ok(self.lock.turn(rt, seat, DoStep { node }))
    }

    /// The parameters of the letter.
    fn params(&self, letter: Letter) -> u8
        requires { letter.0 < (M.meaning self.now.fixed.definition).letters }
        ensures { result ≡ (M.meaning self.now.fixed.definition).params letter.0 }
    {
        self.masks[letter.0 as usize]
    }

    /// A note of what the seat has seen. It waits for nobody, and takes no memory.
    pub fn note(&self, seat: &mut Seat<M>) -> Note<M>
        requires { IsSeatOf self.now seat.old }
        ensures note { result ≡ note_of seat.old }
        ensures unchanged { seat.new ≡ seat.old }
    {
        self.lock.note(seat)
    }

    /// The seat hears a note: what both have seen are parts of one history from the beginning on, and the seat keeps
    /// the longer. It waits for nobody, and takes no memory.
    pub fn hear(&self, seat: &mut Seat<M>, note: Note<M>)
        requires seat { IsSeatOf self.now seat.old }
        requires note { IsNoteOf self.now note }
        ensures one { HaveOneHistory seat.old.seen note.seen }
        ensures longer { seat.new ≡ record seat.old { seen = longer_of seat.old.seen note.seen } }
        ensures own { own_entries caller_of seat.new ≡ own_entries caller_of seat.old }
        ensures legal { IsLegal (M.meaning self.now.fixed.definition) seat.old.seen
            → IsLegal (M.meaning self.now.fixed.definition) note.seen
            → IsLegal (M.meaning self.now.fixed.definition) seat.new.seen }
    {
        self.lock.hear(seat, note);
    }

    /// The core, once all seats have come back, in any order. Its history goes on from what each has seen, with no
    /// further entry of any number that a seat has, and has no entry of another number.
    pub fn close(self, seats: Vec<Seat<M>>) -> Prop<M>
        requires all { vec_len seats ≡ self.seats }
        requires each { All (λ s. IsSeatOf self s) seats.items }
        ensures fixed { (result.definition ≡ self.fixed.definition) × (result.objects ≡ self.fixed.objects) }
        ensures legal { IsLegal (M.meaning result.definition) result.entries }
        ensures fits { FitsHistory (M.meaning result.definition) result.entries result.stored result.marks }
        ensures seen { All (λ s. IsPrefix s.seen result.entries) seats.items }
        ensures own { All (λ s. entries_by caller_of s.number result.entries ≡ own_entries caller_of s) seats.items }
        ensures others { All (λ x. Any (λ s. s.number ≡ x.caller) seats.items) result.entries }
    {
        let Watch { lock, masks: _ } = self;
        let Watched { prop } = lock.close(seats);
        let prop = Box::into_inner(prop);
        let _history = prop.history();
        prop
    }
}
