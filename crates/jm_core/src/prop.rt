ghost use Rattle.std.specs.Prelude.{◌≡◌, ◌≢◌, [], ◌∷◌, All, AllPairs, IfOk, OnOk, OnErr};
ghost use Rattle.jm_history.specs.Nodes.{answered};
ghost use Rattle.jm_model.specs.declared.step.Step.TheVariants.{Pass};
ghost use Rattle.jm_semantics.specs.Legality.{IsLegal};
ghost use Rattle.jm_core.specs.Steps.{IsEventOf, IsDeathOf, IsFitStep};
ghost use Rattle.jm_core.specs.Cores.{IsExtended, KeepsMemory, KeepsMemoryUnlessFired, FitsHistory, AreInOrder};
ghost use Rattle.jm_core.specs.Memory.{StepKeepsMemory};
ghost use Rattle.jm_core.specs.Replays.{Replayed, ReplayedInPart};

use crate::live::Live;
use jm_awake::Awake;
use jm_history::{History, Node};
use jm_model::{Binding, Monitor, NoMemory, Outcome, Step};
use jm_objects::Objects;
use jm_store::{Call, Store};
use std::alloc::Global;
use std::marker::{Brand, Model};
use std::sync::ledger::Blank;

/// The core of one specification, over a number of objects.
pub struct Prop<M: Monitor> {
    rules: M,
    objects: Objects,
    live: Live<M>,
    history: History,
    alloc: Global,
}

// Written out, so that a drop is one call wherever a core is let go.
impl<M: Monitor> Drop for Prop<M> {
    fn drop(self) {
        let Prop {
            rules: _,
            objects: _,
            live: _,
            history: _,
            alloc: _,
        } = self;
    }
}

impl<M: Monitor> Model for Prop<M> {
    ghost use Rattle.std.specs.Prelude.{length};
    ghost use Rattle.jm_store.specs.Contents.{stored_of};
    ghost use Rattle.jm_core.specs.Cores.{Core};
    ghost use Rattle.jm_core.specs.Inside.{IsCore, instances_of};
    ghost use Rattle.jm_store.specs.Listed.{AreListed};

    ghost Value = { Core M.Definition };

    ghost view = { λ p. record {
      definition = M.definition p.rules;
      objects = length p.objects;
      entries = p.history;
      stored = instances_of (stored_of p.live.store);
      marks = p.live.store.marks;
    } };

    ghost invariant = { λ p. IsCore (M.meaning (M.definition p.rules)) (M.StandsFor p.rules) p.history p.objects
        p.live.store
        × AreListed (M.meaning (M.definition p.rules)) (M.StandsFor p.rules) p.objects p.live.store.monitors
        p.live.awake };
}

impl<M: Monitor> Prop<M> {
    /// A core without history. All its objects live.
    pub fn new(alloc: Global, rules: M, objects: u32) -> Result<Prop<M>, NoMemory>
        ensures definition { IfOk result (λ prop. prop.definition ≡ M.definition rules) }
        ensures objects { IfOk result (λ prop. prop.objects ≡ objects) }
        ensures entries { IfOk result (λ prop. prop.entries ≡ []) }
        ensures legal { IfOk result (λ prop. IsLegal (M.meaning prop.definition) prop.entries) }
        ensures fits { IfOk result (λ prop. FitsHistory
            (M.meaning prop.definition) prop.entries prop.stored prop.marks) }
    {
        let objects = Objects::new(alloc, objects)?;
        let store = Store::new(alloc, &rules)?;
        Ok(Prop {
            rules,
            objects,
            live: Live {
                store,
                awake: Awake::new(alloc),
            },
            history: History::new(),
            alloc,
        })
    }

    /// Does an event, and records it with the outcome that it answers: it is refused exactly where it binds a dead
    /// object, with the first one. Out of memory, the entry stands with NoMemory. Monitors and marks stay as they are
    /// unless the event is answered.
    pub fn event(&mut self, node: Node) -> Outcome
        requires { IsEventOf (M.meaning self.old.definition) self.old.objects node.step }
        ensures added { IsExtended self.old self.new (answered node result ∷ []) }
        ensures memory { KeepsMemoryUnlessFired result self.old self.new }
        ensures legal { IsLegal (M.meaning self.new.definition) self.new.entries }
        ensures fits { FitsHistory (M.meaning self.new.definition) self.new.entries self.new.stored self.new.marks }
    {
        let Step::Event { letter, binding } = node.step() else {
            unreachable!()
        };
        let call = Call {
            rules: &self.rules,
            objects: &self.objects,
            letter: *letter,
            binding,
        };
        let (outcome, copy) = self.live.perform::<Brand>(self.alloc, &call, Blank::new(1));
        self.history.push(node, copy);
        outcome
    }

    /// Lets an object die, and records it: it is refused exactly where the object is dead. It takes no memory, and
    /// monitors and marks stay as they are.
    pub fn death(&mut self, node: Node) -> Outcome
        requires { IsDeathOf self.old.objects node.step }
        ensures added { IsExtended self.old self.new (answered node result ∷ []) }
        ensures memory { KeepsMemory self.old self.new }
        ensures legal { IsLegal (M.meaning self.new.definition) self.new.entries }
        ensures fits { FitsHistory (M.meaning self.new.definition) self.new.entries self.new.stored self.new.marks }
    {
        let Step::Death { object } = node.step() else {
            unreachable!()
        };
        let object = *object;
        if self.objects.kill(object) {
            self.live.store.mourn(&mut self.live.awake, object);
            self.history.push(node, Outcome::Done);
            Outcome::Done
        } else {
            self.history.push(node, Outcome::Refused(object));
            Outcome::Refused(object)
        }
    }

    /// Drops the monitors of instances that can't fire any more and the marks without a live object, and records how
    /// many monitors are kept. It takes no memory.
    pub fn pass(&mut self, node: Node) -> Outcome
        requires { node.step ≡ Pass }
        ensures added { IsExtended self.old self.new (answered node result ∷ []) }
        ensures legal { IsLegal (M.meaning self.new.definition) self.new.entries }
        ensures fits { FitsHistory (M.meaning self.new.definition) self.new.entries self.new.stored self.new.marks }
    {
        let kept = self.live.store.dispose(&self.rules, &self.objects);
        self.live.store.settle(&mut self.live.awake);
        self.history.push(node, Outcome::Kept(kept));
        Outcome::Kept(kept)
    }

    /// Does a caller's steps in order, and records each with its line. It stops at the first for which memory runs out.
    pub fn replay(&mut self, caller: u32, steps: &[(u32, Step)]) -> Result<(), NoMemory>
        requires { All (λ s. IsFitStep (M.meaning self.old.definition) self.old.objects s.1) steps.now }
        ensures ok { OnOk result (Replayed caller steps.now self.old self.new) }
        ensures err { OnErr result (ReplayedInPart caller steps.now self.old self.new) }
        ensures legal { IsLegal (M.meaning self.new.definition) self.new.entries }
        ensures fits { FitsHistory (M.meaning self.new.definition) self.new.entries self.new.stored self.new.marks }
    {
        let _history = &self.history;
        for (line, step) in steps {
            let node = self.node(caller, *line, *step)?;
            if let Outcome::NoMemory = self.step(node) {
                return Err(NoMemory);
            }
        }
        Ok(())
    }

    /// A step that is not recorded yet, with the memory that its entry takes.
    fn node(&mut self, caller: u32, line: u32, step: Step) -> Result<Node, NoMemory>
        ensures unchanged { self.new ≡ self.old }
        ensures node { IfOk result (λ node. node ≡ record { caller = caller; line = line; step = step }) }
    {
        self.history.node(self.alloc, caller, line, step)
    }

    /// Does a step of any kind, as `event`, `death` and `pass` do, and records it with the outcome that it answers: in
    /// a row of entries, which takes less memory than the node's link, where there is room or memory for it.
    #[inline(always)]
    pub fn step(&mut self, node: Node) -> Outcome
        requires { IsFitStep (M.meaning self.old.definition) self.old.objects node.step }
        ensures added { IsExtended self.old self.new (answered node result ∷ []) }
        ensures memory { StepKeepsMemory node.step result self.old self.new }
        ensures legal { IsLegal (M.meaning self.new.definition) self.new.entries }
        ensures fits { FitsHistory (M.meaning self.new.definition) self.new.entries self.new.stored self.new.marks }
    {
        self.history.make_room(self.alloc);
        match node.step() {
            Step::Event { .. } => self.event(node),
            Step::Death { .. } => self.death(node),
            Step::Pass => self.pass(node),
        }
    }

    /// The rules that the core was made with.
    pub fn rules(&self) -> &M
        ensures { M.definition result.now ≡ self.now.definition }
    {
        &self.rules
    }

    /// How many objects there are, dead ones among them.
    pub fn objects(&self) -> u32
        ensures { result ≡ self.now.objects }
    {
        self.objects.len()
    }

    /// All entries so far, the oldest first.
    pub fn history(&self) -> &History
        ensures value { result.now ≡ self.now.entries }
        ensures legal { IsLegal (M.meaning self.now.definition) self.now.entries }
        ensures fits { FitsHistory (M.meaning self.now.definition) self.now.entries self.now.stored self.now.marks }
    {
        &self.history
    }

    /// The rules and the history: all else that the core has in memory is let go.
    pub fn into_parts(self) -> (M, History)
        ensures rules { M.definition result.0 ≡ self.definition }
        ensures history { result.1 ≡ self.entries }
        ensures legal { IsLegal (M.meaning self.definition) self.entries }
    {
        let Prop {
            rules,
            objects: _,
            live: _,
            history,
            alloc: _,
        } = self;
        (rules, history)
    }

    /// The history alone: the rules are let go too.
    pub fn into_history(self) -> History
        ensures value { result ≡ self.entries }
        ensures legal { IsLegal (M.meaning self.definition) self.entries }
    {
        let (_, history) = self.into_parts();
        history
    }

    /// The bindings that have a monitor, in the order of bindings.
    pub fn stored(&self) -> Result<Vec<Binding>, NoMemory>
        ensures value { IfOk result (λ list. AreInOrder self.now.stored list.items) }
        ensures fits { FitsHistory (M.meaning self.now.definition) self.now.entries self.now.stored self.now.marks }
    {
        self.live.store.stored()
    }

    /// The marks, in the order of bindings.
    pub fn marks(&self) -> Result<Vec<Binding>, NoMemory>
        ensures value { IfOk result (λ list. AreInOrder self.now.marks list.items) }
        ensures distinct { AllPairs (λ a b. a ≢ b) self.now.marks }
        ensures fits { FitsHistory (M.meaning self.now.definition) self.now.entries self.now.stored self.now.marks }
    {
        self.live.store.marks()
    }
}
