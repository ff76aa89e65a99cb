//! Lines of a script that take few bytes.
ghost use Rattle.std.specs.Prelude.{◌≡◌, ◌+◌, ◌<◌, ◌≤◌, ◌^◌, [], ◌∷◌, ◌++◌, length, take, count_ones, slice_get, option_map, Some, vec_len, vec_capacity, IfOk, OnOk, OnErr};
ghost use mathlib.Core.List.{IsPrefix};
ghost use Rattle.jm_semantics.specs.Scripts.{projection_of};
ghost use Rattle.jm_script.specs.Events.{spread};
ghost use Rattle.jm_script.specs.Projections.{script_of};
ghost use Rattle.jm_script.specs.Blocks.{target_of, target_in, FitsIn, Grown};

use crate::action::Action;
use crate::script::{ScriptLine, Target};
use jm_model::{Binding, Letter, NoMemory, Step};
use std::alloc::Global;
use std::marker::Model;

/// How many lines a block has at most. Those of a full block take so much memory that the C library maps it apart, and
/// the system has it back as soon as the block is let go.
pub(crate) const MOST_LINES: usize = 16_384;

/// How many objects an event has at most.
const MOST: usize = 8;

/// What a line does. The objects of an event or a death stand in a row, the first of them at a place.
#[derive(Clone, Copy)]
enum Brief {
    Event {
        spec: u8,
        letter: Letter,
        mask: u8,
        first: u32,
    },
    Death {
        first: u32,
    },
    Pass {
        spec: u8,
    },
}

/// A line in short form, and its number.
#[derive(Clone, Copy)]
struct BriefLine {
    number: u32,
    brief: Brief,
}

/// Some step lines, in order. A line takes 12 bytes, and four for each object. Contracts see them as their list.
pub struct Block {
    lines: Vec<BriefLine>,
    objects: Vec<u32>,
}

// Most of a block is given back before the rest is: where a large piece of memory is freed at once, the C library takes
// it that large pieces come and go, and maps those that grow later no longer apart.
impl Drop for Block {
    fn drop(self) {
        let Block {
            mut lines,
            mut objects,
        } = self;
        lines.truncate(1);
        let _ = lines.shrink_to_fit();
        objects.truncate(1);
        let _ = objects.shrink_to_fit();
    }
}

impl Model for Block {
    ghost use Rattle.std.specs.Prelude.{List};
    ghost use Rattle.jm_script.specs.declared.script.ScriptLine.{ScriptLine};
    ghost use Rattle.jm_script.specs.Blocks.{lines_in, IsBlock};

    ghost Value = { List ScriptLine };

    ghost view = { λ b. lines_in b.objects.items b.lines.items };

    ghost invariant = { λ b. IsBlock b.lines.items b.objects.items };
}

impl Block {
    /// No line, with room for a number of them.
    pub(crate) fn with_capacity(alloc: Global, lines: usize) -> Result<Block, NoMemory>
        ensures { IfOk result (λ block. block ≡ []) }
    {
        Ok(Block {
            lines: Vec::with_capacity(alloc, lines)?,
            objects: Vec::with_capacity(alloc, lines.saturating_add(MOST))?,
        })
    }

    /// An equal block.
    pub(crate) fn copy(&self) -> Result<Block, NoMemory>
        ensures { IfOk result (λ block. block ≡ self.now) }
    {
        let lines = self.lines.clone()?;
        let objects = self.objects.clone()?;
        Ok(Block { lines, objects })
    }

    /// Adds a line at the end, whose objects have these numbers.
    #[inline(always)]
    pub(crate) fn push(
        &mut self,
        line: u32,
        action: Action,
        numbers: &[u32; 8],
    ) -> Result<(), NoMemory>
        requires { length self.old < MOST_LINES }
        ensures ok { OnOk result
            (self.new ≡ self.old ++ record { line = line; target = target_of numbers.now action } ∷ []) }
        ensures err { OnErr result (self.new ≡ self.old) }
    {
        self.lines.reserve(1)?;
        self.objects.reserve(MOST)?;
        let brief = shortened(&mut self.objects, action, numbers);
        self.lines.push_reserved(BriefLine {
            number: line,
            brief,
        });
        Ok(())
    }

    /// How many lines there are.
    pub fn len(&self) -> usize
        ensures { result ≡ length self.now }
    {
        self.lines.len()
    }

    /// The number of the line at a place.
    pub fn number(&self, place: usize) -> u32
        requires { place < length self.now }
        ensures { option_map (λ l. l.line) (slice_get self.now place) ≡ Some result }
    {
        self.lines[place].number
    }

    /// The line at a place.
    #[inline(always)]
    pub fn line(&self, place: usize) -> ScriptLine
        requires { place < length self.now }
        ensures { slice_get self.now place ≡ Some result }
    {
        let line = self.lines[place];
        ScriptLine {
            line: line.number,
            target: whole(&self.objects, line.brief),
        }
    }

    /// Adds the steps that are for a specification at the end, with the numbers of their lines. Out of memory, it may
    /// have added some.
    pub fn add_steps(&self, spec: u8, steps: &mut Vec<(u32, Step)>) -> Result<(), NoMemory>
        ensures ok { OnOk result (steps.new.items ≡ steps.old.items ++ projection_of (script_of self.now) spec) }
        ensures err { OnErr result (IsPrefix steps.old.items steps.new.items) }
    {
        for place in 0..self.lines.len() {
            let line = self.line(place);
            let Some(step) = line.target.step_for(spec) else {
                continue;
            };
            steps.push((line.line, step))?;
        }
        Ok(())
    }
}

/// The short form of an action, whose objects are put after the others.
#[inline(always)]
fn shortened(objects: &mut Vec<u32>, action: Action, numbers: &[u32; 8]) -> Brief
    requires room { vec_len objects.old + 8 ≤ vec_capacity objects.old }
    requires bounded { vec_len objects.old < 2 ^ 32 }
    ensures target { target_in objects.new.items result ≡ target_of numbers.now action }
    ensures fits { FitsIn (length objects.new.items) result }
    ensures grown { Grown objects.old.items objects.new.items }
    ensures len { vec_len objects.new ≤ vec_len objects.old + 8 }
{
    let first = objects.len() as u32;
    match action {
        Action::Event { event } => {
            add_first(objects, numbers, event.mask.count_ones() as usize);
            Brief::Event {
                spec: event.spec,
                letter: event.letter,
                mask: event.mask,
                first,
            }
        }
        Action::Death { object } => {
            objects.push_reserved(object);
            Brief::Death { first }
        }
        Action::Pass { spec } => Brief::Pass { spec },
    }
}

/// Puts the first `count` numbers after the others. All eight are copied, since a copy of a known length takes no call.
#[inline(always)]
fn add_first(objects: &mut Vec<u32>, numbers: &[u32; 8], count: usize)
    requires room { vec_len objects.old + 8 ≤ vec_capacity objects.old }
    requires bounded { count ≤ 8 }
    ensures objects { objects.new.items ≡ objects.old.items ++ take count numbers.now }
    ensures len { vec_len objects.new ≡ vec_len objects.old + count }
{
    let end = objects.len() + count;
    for place in 0..MOST {
        objects.push_reserved(numbers[place]);
    }
    objects.truncate(end);
}

/// The target of a short form, where the objects of all lines are these.
#[inline(always)]
fn whole(objects: &[u32], brief: Brief) -> Target
    requires { FitsIn (length objects.now) brief }
    ensures { result ≡ target_in objects.now brief }
{
    match brief {
        Brief::Event {
            spec,
            letter,
            mask,
            first,
        } => Target::Event {
            spec,
            letter,
            binding: binding(&objects[first as usize..], mask),
        },
        Brief::Death { first } => Target::Death {
            object: objects[first as usize],
        },
        Brief::Pass { spec } => Target::Pass { spec },
    }
}

/// The binding of the parameters of a set to the first of these objects.
#[inline(always)]
fn binding(objects: &[u32], mask: u8) -> Binding
    requires { count_ones mask ≤ length objects.now }
    ensures { result ≡ spread 8 mask (take (count_ones mask) objects.now) }
{
    Binding::of(mask, &objects[..mask.count_ones() as usize])
}
