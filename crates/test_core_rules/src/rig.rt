//! A core over compiled rules.
ghost use Rattle.std.specs.Prelude.{◌≡◌, ◌<◌, true, IfSome, IfOk, All};
ghost use Rattle.jm_core.specs.Steps.{IsFitStep};

use jm_core::Prop;
use jm_history::{History, Node};
use jm_model::{Binding, Letter, Monitor, NoMemory, Outcome, Step};
use std::alloc::{AllocError, Global};
use testkit::number_of;

#[derive(Drop)]
pub(crate) struct Rig<M: Monitor> {
    alloc: Global,
    prop: Prop<M>,
}

impl<M: Monitor> Rig<M> {
    pub(crate) fn new(alloc: Global, rules: M, objects: u32) -> Result<Rig<M>, NoMemory> {
        let prop = Prop::new(alloc, rules, objects)?;
        Ok(Rig { alloc, prop })
    }

    pub(crate) fn stored(&self) -> Result<Vec<Binding>, NoMemory> {
        self.prop.stored()
    }

    pub(crate) fn marks(&self) -> Result<Vec<Binding>, NoMemory> {
        self.prop.marks()
    }

    pub(crate) fn history(&self) -> &History {
        self.prop.history()
    }

    /// Does the step of a word, and gives its outcome. A word that is no step is answered `NoMemory`.
    pub(crate) fn fire(&mut self, word: &str) -> Result<Outcome, NoMemory> {
        let Some(step) = self.step_of(word)? else {
            return Ok(Outcome::NoMemory);
        };
        let node = Node::new(self.alloc, 0, 1, step)?;
        Ok(self.answer(node))
    }

    fn answer(&mut self, node: Node) -> Outcome
        requires { IsFitStep (M.meaning self.old.prop.definition) self.old.prop.objects node.step }
    {
        match node.step() {
            Step::Event { .. } => self.prop.event(node),
            Step::Death { .. } => self.prop.death(node),
            Step::Pass => self.prop.pass(node),
        }
    }

    /// Replays the steps of all words.
    pub(crate) fn replay(&mut self, words: &str) -> Result<(), NoMemory> {
        let steps = self.steps(words)?;
        self.prop.replay(0, &steps)
    }

    fn steps(&self, words: &str) -> Result<Vec<(u32, Step)>, NoMemory>
        ensures { IfOk result (λ steps. All (λ s. IsFitStep (M.meaning self.now.prop.definition)
            self.now.prop.objects s.1) steps.items) }
    {
        let mut steps = Vec::new(self.alloc);
        for word in words.split_whitespace() {
            if let Some(step) = self.step_of(word)? {
                steps.push((1, step))?;
            }
        }
        Ok(steps)
    }

    /// The step of a word: `event:LETTER:OBJECT,..`, `death:OBJECT` or `pass`.
    fn step_of(&self, word: &str) -> Result<Option<Step>, NoMemory>
        ensures { IfOk result (λ step. IfSome step (λ step. IsFitStep (M.meaning self.now.prop.definition)
            self.now.prop.objects step)) }
    {
        let (verb, rest) = word.split_once(':').unwrap_or((word, ""));
        match verb {
            "event" => self.event_of(rest),
            "death" => Ok(self.death_of(number_of(rest))),
            _ => Ok(Some(Step::Pass)),
        }
    }

    fn death_of(&self, object: u32) -> Option<Step>
        ensures { IfSome result (λ step. IsFitStep (M.meaning self.now.prop.definition) self.now.prop.objects step) }
    {
        if object < self.prop.objects() {
            Some(Step::Death { object })
        } else {
            None
        }
    }

    fn event_of(&self, text: &str) -> Result<Option<Step>, NoMemory>
        ensures { IfOk result (λ step. IfSome step (λ step. IsFitStep (M.meaning self.now.prop.definition)
            self.now.prop.objects step)) }
    {
        let (letter, objects) = text.split_once(':').unwrap_or((text, ""));
        let objects = numbers(self.alloc, objects)?;
        let letter = letter.parse::<u8>().unwrap_or(255);
        Ok(self.event(Letter(letter), &objects))
    }

    /// The event of a letter and the objects of its parameters.
    fn event(&self, letter: Letter, objects: &[u32]) -> Option<Step>
        ensures { IfSome result (λ step. IsFitStep (M.meaning self.now.prop.definition) self.now.prop.objects step) }
    {
        let rules = self.prop.rules();
        if letter.0 >= rules.letters() {
            return None;
        }
        let mask = rules.params(letter);
        if mask.count_ones() as usize != objects.len() || !are_below(objects, self.prop.objects()) {
            return None;
        }
        Some(Step::Event {
            letter,
            binding: Binding::of(mask, objects),
        })
    }
}

/// Whether all these objects are below a number.
fn are_below(objects: &[u32], n: u32) -> bool
    ensures { result ≡ true → All (λ o. o < n) objects.now }
{
    objects.iter().all(|object| *object < n)
}

fn numbers(alloc: Global, words: &str) -> Result<Vec<u32>, AllocError> {
    let mut numbers = Vec::new(alloc);
    for word in words.split(',') {
        if !word.is_empty() {
            numbers.push(number_of(word))?;
        }
    }
    Ok(numbers)
}
