ghost use Rattle.std.specs.Prelude.{◌≡◌, ◌%◌, ◌^◌, [], ◌∷◌, ◌++◌, length, reverse, IfOk, OnOk};
ghost use Rattle.std.specs.List.{flat_map};
ghost use Rattle.jm_history.specs.Nodes.{answered};

use crate::chain::Chain;
use crate::lent::Piece;
use crate::node::Node;
use jm_model::{Entry, NoMemory, Outcome, Step};
use std::alloc::Global;
use std::marker::Model;

/// A list of entries, the oldest first.
#[derive(Drop)]
pub struct History {
    newest: Chain,
    count: u64,
    /// The memory of one link that no entry took, for the next node.
    spare: Option<Box<Chain>>,
}

impl Model for History {
    ghost use Rattle.std.specs.Prelude.{List, ◌≡◌, ◌%◌, ◌^◌, length, reverse};
    ghost use Rattle.jm_model.specs.declared.step.Entry.{Entry};
    ghost use Rattle.jm_history.specs.Chains.{newest_first};

    ghost Value = { List Entry };

    ghost view = { λ h. reverse (newest_first h.newest) };

    ghost invariant = { λ h. h.count ≡ length (newest_first h.newest) % 2 ^ 64 };
}

impl History {
    /// A history without entries.
    pub fn new() -> History
        ensures { result ≡ [] }
    {
        History {
            newest: Chain::End,
            count: 0,
            spare: None,
        }
    }

    /// How many entries there are, modulo 2^64: the place of the next one.
    pub fn len(&self) -> u64
        ensures { result ≡ length self.now % 2 ^ 64 }
    {
        self.count
    }

    /// A step of a caller, at a line of its script, as `Node::new` makes it, but with the spare link, if there is one:
    /// where one caller makes many entries, a link is used again from entry to entry.
    #[inline(always)]
    pub fn node(
        &mut self,
        alloc: Global,
        caller: u32,
        line: u32,
        step: Step,
    ) -> Result<Node, NoMemory>
        ensures unchanged { self.new ≡ self.old }
        ensures node { IfOk result (λ node. node ≡ record { caller = caller; line = line; step = step }) }
    {
        match self.spare.take() {
            Some(link) => Ok(Node::with_link(caller, line, step, link)),
            None => Node::new(alloc, caller, line, step),
        }
    }

    /// Makes room for an entry in a row of entries, which takes less memory than a link, if there is memory.
    #[inline(always)]
    pub fn make_room(&mut self, alloc: Global)
        ensures { self.new ≡ self.old }
    {
        self.newest.make_room(alloc);
    }

    /// Adds an entry at the end. It takes no memory: the node brings its own. Where the entry goes into a row, the link
    /// of the node is kept as the spare one, unless there is one.
    #[inline(always)]
    pub fn push(&mut self, node: Node, outcome: Outcome)
        ensures { self.new ≡ self.old ++ answered node outcome ∷ [] }
    {
        match self.newest.add(&node, outcome) {
            None => {
                let _ = self.spare.get_or_insert(node.into_link());
            }
            Some(outcome) => self.newest.link(node, outcome),
        }
        self.count = self.count.wrapping_add(1);
    }

    /// The entries in pieces, the oldest first, lent and not copied: a piece for each row, and for each entry that
    /// doesn't stand in one.
    pub fn pieces(&self, alloc: Global) -> Result<Vec<Piece<'_>>, NoMemory>
        ensures { IfOk result (λ pieces. flat_map (λ piece. piece) pieces.items ≡ self.now) }
    {
        let mut pieces = Vec::new(alloc);
        let mut rest = &self.newest;
        loop {
            match rest {
                Chain::End => break,
                Chain::Block(row, older) => {
                    pieces.push(Piece::row(row))?;
                    rest = older;
                }
                Chain::Link(entry, older) => {
                    pieces.push(Piece::one(entry))?;
                    rest = older;
                }
            }
        }
        pieces.reverse();
        Ok(pieces)
    }

    /// A copy of the entries, the oldest first.
    pub fn to_list(&self, alloc: Global) -> Result<Vec<Entry>, NoMemory>
        ensures { IfOk result (λ entries. entries.items ≡ self.now) }
    {
        let pieces = self.pieces(alloc)?;
        let mut entries = Vec::new(alloc);
        for piece in &pieces {
            add_copies(piece, &mut entries)?;
        }
        Ok(entries)
    }
}

/// Adds copies of the entries of a piece.
fn add_copies(piece: &Piece, entries: &mut Vec<Entry>) -> Result<(), NoMemory>
    ensures { OnOk result (entries.new.items ≡ entries.old.items ++ piece.now) }
{
    let count = piece.len();
    for i in 0..count {
        entries.push(piece.get(i).copy()?)?;
    }
    Ok(())
}
