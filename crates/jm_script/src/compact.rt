//! Scripts whose lines take few bytes.
ghost use Rattle.std.specs.Prelude.{◌≡◌, ◌<◌, ◌≤◌, ◌%◌, [], ◌∷◌, ◌++◌, ℕ, List, length, All, slice_get, option_map, Some, IfOk, OnOk, OnErr};
ghost use Rattle.jm_semantics.specs.Scripts.{projection_of};
ghost use Rattle.jm_script.specs.Projections.{script_of};
ghost use Rattle.jm_script.specs.Blocks.{lines_of, steps_in, target_of, AreFull};
ghost use Rattle.jm_script.specs.Catalogs.{CatalogEntry};
ghost use Rattle.jm_script.specs.Fitting.{FitsCatalog, FitsSpecification};
ghost use Rattle.jm_script.specs.Meanings.{most_steps, RisesFrom};

use crate::action::Action;
use crate::block::{Block, MOST_LINES};
use crate::queue::LineQueue;
use crate::script::ScriptLine;
use jm_model::{NoMemory, Step};
use std::alloc::Global;
use std::marker::Model;
use std::mem;

/// The step lines of a script, in order, in blocks that can be let go one by one. Their numbers rise. Contracts see a
/// script as their list.
#[derive(Drop)]
pub struct CompactScript {
    full: Vec<Block>,
    last: Block,
}

impl Model for CompactScript {
    ghost use Rattle.std.specs.Prelude.{List};
    ghost use Rattle.jm_script.specs.declared.script.ScriptLine.{ScriptLine};
    ghost use Rattle.jm_script.specs.Blocks.{lines_of, IsCompact};

    ghost Value = { List ScriptLine };

    ghost view = { λ s. lines_of s.full.items s.last };

    ghost invariant = { λ s. IsCompact s.full.items s.last };
}

impl CompactScript {
    /// No line.
    pub(crate) fn new(alloc: Global) -> Result<CompactScript, NoMemory>
        ensures { IfOk result (λ script. script ≡ []) }
    {
        Ok(CompactScript {
            full: Vec::new(alloc),
            last: Block::with_capacity(alloc, MOST_LINES)?,
        })
    }

    /// Adds a line at the end, whose objects have these numbers.
    #[inline(always)]
    pub(crate) fn push(
        &mut self,
        alloc: Global,
        line: u32,
        action: Action,
        numbers: &[u32; 8],
    ) -> Result<(), NoMemory>
        requires bounded { length self.old < most_steps }
        requires rises { RisesFrom 1 (self.old ++ record { line = line; target = target_of numbers.now action } ∷ []) }
        ensures ok { OnOk result
            (self.new ≡ self.old ++ record { line = line; target = target_of numbers.now action } ∷ []) }
        ensures err { OnErr result (self.new ≡ self.old) }
    {
        make_room(alloc, &mut self.full, &mut self.last)?;
        self.last.push(line, action, numbers)
    }

    /// How many lines there are, at most 200,000. Their numbers rise.
    pub fn len(&self) -> usize
        ensures value { result ≡ length self.now }
        ensures bounded { result ≤ most_steps }
        ensures rising { RisesFrom 1 self.now }
    {
        self.full.len() * MOST_LINES + self.last.len()
    }

    /// The number of the line at a place.
    pub fn number(&self, place: usize) -> u32
        requires { place < length self.now }
        ensures { option_map (λ l. l.line) (slice_get self.now place) ≡ Some result }
    {
        block_at(self.full.as_slice(), &self.last, place).number(place % MOST_LINES)
    }

    /// The line at a place.
    pub fn line(&self, place: usize) -> ScriptLine
        requires { place < length self.now }
        ensures { slice_get self.now place ≡ Some result }
    {
        block_at(self.full.as_slice(), &self.last, place).line(place % MOST_LINES)
    }

    /// The steps that are for a specification, with the numbers of their lines: its events and passes, and all deaths.
    pub fn steps(&self, alloc: Global, spec: u8) -> Result<Vec<(u32, Step)>, NoMemory>
        ensures value { IfOk result (λ steps. steps.items ≡ projection_of (script_of self.now) spec) }
        ensures fitting { (catalog : List CatalogEntry) (names : ℕ) → FitsCatalog catalog names self.now
            → IfOk result (λ steps. All (λ s. FitsSpecification catalog names spec s.1) steps.items) }
    {
        let mut steps = Vec::with_capacity(alloc, self.len())?;
        add_steps(self.full.as_slice(), spec, &mut steps)?;
        self.last.add_steps(spec, &mut steps)?;
        Ok(steps)
    }

    /// A queue of the lines.
    pub fn into_queue(self) -> Result<LineQueue, NoMemory>
        ensures { IfOk result (λ queue. queue ≡ self) }
    {
        let CompactScript { full, last } = self;
        let mut blocks = full;
        if last.len() > 0 {
            blocks.push(last)?;
        }
        Ok(LineQueue::of(blocks))
    }

    /// An equal script.
    pub fn copy(&self, alloc: Global) -> Result<CompactScript, NoMemory>
        ensures { IfOk result (λ script. script ≡ self.now) }
    {
        let mut full = Vec::with_capacity(alloc, self.full.len())?;
        for block in &self.full {
            full.push(block.copy()?)?;
        }
        let last = self.last.copy()?;
        Ok(CompactScript { full, last })
    }

    /// The lines in blocks.
    pub fn into_blocks(self) -> Result<Vec<Block>, NoMemory>
        ensures value { (spec : ℕ) → IfOk result
            (λ blocks. steps_in spec blocks.items ≡ projection_of (script_of self) spec) }
        ensures fitting { (catalog : List CatalogEntry) (names spec : ℕ) → FitsCatalog catalog names self
            → IfOk result (λ blocks. All (λ s. FitsSpecification catalog names spec s.1) (steps_in spec blocks.items)) }
    {
        let CompactScript { mut full, last } = self;
        full.push(last)?;
        Ok(full)
    }
}

/// Makes room for a line in the last block: a full one is put after the others.
#[inline(always)]
fn make_room(alloc: Global, full: &mut Vec<Block>, last: &mut Block) -> Result<(), NoMemory>
    requires full { AreFull full.old.items }
    requires last { length last.old ≤ MOST_LINES }
    ensures lines { lines_of full.new.items last.new ≡ lines_of full.old.items last.old }
    ensures full { AreFull full.new.items }
    ensures last { length last.new ≤ MOST_LINES }
    ensures room { OnOk result (length last.new < MOST_LINES) }
{
    if last.len() < MOST_LINES {
        return Ok(());
    }
    begin_block(alloc, full, last)
}

/// Puts a block after the others, and begins another in its place.
#[inline(never)]
fn begin_block(alloc: Global, full: &mut Vec<Block>, last: &mut Block) -> Result<(), NoMemory>
    ensures ok { OnOk result ((full.new.items ≡ full.old.items ++ last.old ∷ []) × (last.new ≡ [])) }
    ensures err { OnErr result ((full.new.items ≡ full.old.items) × (last.new ≡ last.old)) }
{
    full.reserve(1)?;
    let block = Block::with_capacity(alloc, MOST_LINES)?;
    full.push_reserved(mem::replace(last, block));
    Ok(())
}

/// The block in which a line stands, by its place among all. There it has the place that is left.
#[inline(always)]
fn block_at<'a>(full: &'a [Block], last: &'a Block, place: usize) -> &'a Block
    requires full { AreFull full.now }
    requires last { length last.now ≤ MOST_LINES }
    requires in_range { place < length (lines_of full.now last.now) }
    ensures in_range { place % MOST_LINES < length result.now }
    ensures line { slice_get result.now (place % MOST_LINES) ≡ slice_get (lines_of full.now last.now) place }
{
    let block = place / MOST_LINES;
    if block < full.len() {
        &full[block]
    } else {
        last
    }
}

/// Adds the steps of blocks that are for a specification at the end, with the numbers of their lines.
fn add_steps(full: &[Block], spec: u8, steps: &mut Vec<(u32, Step)>) -> Result<(), NoMemory>
    ensures { OnOk result (steps.new.items ≡ steps.old.items ++ steps_in spec full.now) }
{
    for block in 0..full.len() {
        full[block].add_steps(spec, steps)?;
    }
    Ok(())
}
