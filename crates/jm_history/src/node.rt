ghost use Rattle.std.specs.Prelude.{◌≡◌, IfOk};
ghost use Rattle.jm_history.specs.Nodes.{answered};

use crate::chain::Chain;
use jm_model::{Entry, NoMemory, Outcome, Step};
use std::alloc::Global;
use std::marker::Model;

/// An entry of a history that has no outcome yet. It brings the memory of its link along, so that `History::push`
/// takes none.
#[derive(Drop)]
pub struct Node {
    caller: u32,
    line: u32,
    step: Step,
    link: Box<Chain>,
}

impl Model for Node {
    ghost use Rattle.jm_history.specs.Nodes.{Unanswered};

    ghost Value = { Unanswered };

    ghost view = { λ n. record { caller = n.caller; line = n.line; step = n.step } };
}

impl Node {
    /// A step of a caller, at a line of its script.
    pub fn new(alloc: Global, caller: u32, line: u32, step: Step) -> Result<Node, NoMemory>
        ensures { IfOk result (λ node. node ≡ record { caller = caller; line = line; step = step }) }
    {
        let link = Box::new(alloc, Chain::End)?;
        Ok(Node::with_link(caller, line, step, link))
    }

    /// A step of a caller, at a line of its script, with the memory of a link that is there.
    #[inline(always)]
    pub(crate) fn with_link(caller: u32, line: u32, step: Step, link: Box<Chain>) -> Node
        ensures { result ≡ record { caller = caller; line = line; step = step } }
    {
        Node {
            caller,
            line,
            step,
            link,
        }
    }

    /// The caller of `Node::new`.
    pub fn caller(&self) -> u32
        ensures { result ≡ self.now.caller }
    {
        self.caller
    }

    /// The line of `Node::new`.
    pub fn line(&self) -> u32
        ensures { result ≡ self.now.line }
    {
        self.line
    }

    /// The step of `Node::new`.
    pub fn step(&self) -> &Step
        ensures { result.now ≡ self.now.step }
    {
        &self.step
    }

    /// The memory of its link.
    pub(crate) fn into_link(self) -> Box<Chain> {
        let Node { link, .. } = self;
        link
    }

    /// The entry with this outcome, and the memory of its link.
    pub(crate) fn into_entry(self, outcome: Outcome) -> (Entry, Box<Chain>)
        ensures { result.0 ≡ answered self outcome }
    {
        let Node {
            caller,
            line,
            step,
            link,
        } = self;
        let entry = Entry {
            caller,
            line,
            step,
            outcome,
        };
        (entry, link)
    }
}
