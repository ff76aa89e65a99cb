//! The lines of a script, taken one by one.
ghost use Rattle.std.specs.Prelude.{◌≡◌, ◌≤◌, ◌∷◌, All, drop, length, slice_get, IsTrue, IsFalse, MatchOption};
ghost use Rattle.std.specs.List.{flat_map};
ghost use Rattle.jm_script.specs.Blocks.{lines_from, StandsAbove, StandsFrom};
ghost use Rattle.jm_script.specs.Meanings.{RisesFrom};

use crate::block::Block;
use crate::script::ScriptLine;
use std::marker::Model;

/// Step lines that are taken in order. Each block is let go with its last line. Contracts see a queue as the list of
/// the lines that are left. Their numbers rise.
#[derive(Drop)]
pub struct LineQueue {
    /// The blocks that have lines left, the first one last.
    blocks: Vec<Block>,
    /// The place of the next line in its block.
    place: usize,
}

impl Model for LineQueue {
    ghost use Rattle.std.specs.Prelude.{List, reverse};
    ghost use Rattle.jm_script.specs.declared.script.ScriptLine.{ScriptLine};
    ghost use Rattle.jm_script.specs.Blocks.{lines_from, IsQueue};

    ghost Value = { List ScriptLine };

    ghost view = { λ q. lines_from (reverse q.blocks.items) q.place };

    ghost invariant = { λ q. IsQueue (reverse q.blocks.items) q.place };
}

impl LineQueue {
    /// The lines of these blocks, none of which is empty.
    pub(crate) fn of(blocks: Vec<Block>) -> LineQueue
        requires each { All (λ lines. 1 ≤ length lines) blocks.items }
        requires rising { RisesFrom 1 (flat_map (λ lines. lines) blocks.items) }
        ensures { result ≡ flat_map (λ lines. lines) blocks.items }
    {
        let mut blocks = blocks;
        blocks.reverse();
        LineQueue { blocks, place: 0 }
    }

    /// Takes the first line that is left, if it stands above line `number`; without a number, wherever it stands.
    #[inline(always)]
    pub fn pop_above(&mut self, number: Option<u32>) -> Option<ScriptLine>
        ensures line { MatchOption result (self.new ≡ self.old) (λ line. self.old ≡ line ∷ self.new) }
        ensures place { MatchOption result (All (StandsFrom number) self.old) (StandsAbove number) }
    {
        let line = self.first()?;
        if !stands_above(&line, number) {
            return None;
        }
        self.skip();
        Some(line)
    }

    /// The first line that is left.
    #[inline(always)]
    fn first(&self) -> Option<ScriptLine>
        ensures line { slice_get self.now 0 ≡ result }
        ensures rising { RisesFrom 1 self.now }
    {
        let count = self.blocks.len();
        if count == 0 {
            return None;
        }
        Some(self.blocks[count - 1].line(self.place))
    }

    /// Lets go of the first line.
    #[inline(always)]
    fn skip(&mut self)
        requires { 1 ≤ length self.old }
        ensures { self.new ≡ drop 1 self.old }
    {
        let last = self.blocks.len() - 1;
        let count = self.blocks[last].len();
        if self.place + 1 < count {
            self.place += 1;
        } else {
            self.place = 0;
            self.blocks.truncate(last);
        }
    }
}

/// Whether a line stands above line `number`, or there is no number.
#[inline(always)]
fn stands_above(line: &ScriptLine, number: Option<u32>) -> bool
    ensures above { IsTrue result → StandsAbove number line.now }
    ensures from { IsFalse result → StandsFrom number line.now }
{
    match number {
        Some(number) => line.line < number,
        None => true,
    }
}
