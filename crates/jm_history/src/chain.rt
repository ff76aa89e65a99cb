//! The links of a history, the newest entry first.
ghost use Rattle.std.specs.Prelude.{◌≡◌, ◌∷◌, MatchOption};
ghost use Rattle.jm_history.specs.Chains.{newest_first};
ghost use Rattle.jm_history.specs.Nodes.{answered};

use crate::node::Node;
use crate::row::Row;
use jm_model::{Entry, Outcome};
use std::alloc::Global;
use std::mem;

/// How many entries the first row has room for.
const FIRST_ROW: usize = 32;

/// How many entries each other row has room for.
const ROW: usize = 256;

pub(crate) enum Chain {
    End,
    /// Neighbours in a row, and what is older. A row isn't moved once another entry stands before it.
    Block(Row, Box<Chain>),
    Link(Entry, Box<Chain>),
}

// A loop, since a history is long and the stack is not.
impl Drop for Chain {
    fn drop(mut self) {
        loop {
            match self {
                Chain::End => return,
                Chain::Block(_, older) => self = Box::into_inner(older),
                Chain::Link(_, older) => self = Box::into_inner(older),
            }
        }
    }
}

impl Chain {
    /// Makes room for an entry in a row, if there is memory.
    #[inline(always)]
    pub(crate) fn make_room(&mut self, alloc: Global)
        ensures { newest_first self.new ≡ newest_first self.old }
    {
        let entries = match self {
            Chain::End => FIRST_ROW,
            Chain::Block(row, _) => {
                if row.has_room() || row.make_room() {
                    return;
                }
                ROW
            }
            Chain::Link(_, _) => ROW,
        };
        self.begin_row(alloc, entries);
    }

    /// Begins a row with room for the given number of entries, if there is memory.
    #[inline(never)]
    fn begin_row(&mut self, alloc: Global, entries: usize)
        ensures { newest_first self.new ≡ newest_first self.old }
    {
        let Ok(mut older) = Box::new(alloc, Chain::End) else {
            return;
        };
        let Ok(row) = Row::new(alloc, entries) else {
            return;
        };
        *older = mem::replace(self, Chain::End);
        *self = Chain::Block(row, older);
    }

    /// Puts an entry at the end of the newest row, if there is room in it. Else its outcome comes back.
    #[inline(always)]
    pub(crate) fn add(&mut self, node: &Node, outcome: Outcome) -> Option<Outcome>
        ensures { MatchOption result
            (newest_first self.new ≡ answered node.now outcome ∷ newest_first self.old)
            (λ back. (back ≡ outcome) × (newest_first self.new ≡ newest_first self.old)) }
    {
        match self {
            Chain::Block(row, _) => row.push(node.caller(), node.line(), node.step(), outcome),
            _ => Some(outcome),
        }
    }

    /// Puts an entry before all others, as a link of its own. It is a call of its own, so that an entry of a row passes
    /// by what it keeps on the stack.
    #[inline(never)]
    pub(crate) fn link(&mut self, node: Node, outcome: Outcome)
        ensures { newest_first self.new ≡ answered node outcome ∷ newest_first self.old }
    {
        let (entry, mut link) = node.into_entry(outcome);
        *link = mem::replace(self, Chain::End);
        *self = Chain::Link(entry, link);
    }
}
