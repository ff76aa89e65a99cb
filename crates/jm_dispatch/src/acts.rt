//! What is done to the core in a turn. The act brings its node along, so that nothing is made under the lock but what
//! the core's own event takes.
use crate::watched::Watched;
use jm_history::Node;
use jm_model::{Monitor, Outcome};
use jm_turn::Act;

/// What a step was answered: the place of its entry in the history, modulo 2^64, and its outcome.
#[derive(Drop)]
pub struct Answer {
    pub place: u64,
    pub outcome: Outcome,
}

/// A step of any kind.
pub(crate) struct DoStep {
    pub(crate) node: Node,
}

impl<M: Monitor> Act<Watched<M>> for DoStep {
    type Answer = Answer;

    ghost use Rattle.std.specs.Prelude.{ℕ, List};
    ghost use Rattle.jm_core.specs.Steps.{IsFitStep};
    ghost use Rattle.jm_dispatch.specs.Steps.{Answered};

    ghost number = { λ a. a.node.caller };

    ghost suits = { λ a f. IsFitStep (M.meaning f.definition) f.objects a.node.step };

    ghost relates = { λ a f before answer after. Answered (M.meaning f.definition) a.node before answer after };

    fn caller(&self) -> u32 {
        self.node.caller()
    }

    fn run(self, value: &mut Watched<M>) -> Answer {
        let DoStep { node } = self;
        let place = value.prop.history().len();
        let outcome = value.prop.step(node);
        Answer { place, outcome }
    }
}
