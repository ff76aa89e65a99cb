//! For each set of dead parameters, the letters that it leaves.
ghost use Rattle.std.specs.Prelude.{ℕ, ◌≡◌, ◌<◌, ◌≤◌, ◌↔◌, ◌++◌, List, All, IsBitSet, IfOk, OnOk, Some, length, slice_get};
ghost use Rattle.jm_earley.specs.declared.letter_set.LetterSet.{LetterSet};
ghost use Rattle.jm_earley.specs.LetterSets.{IsExact};
ghost use Rattle.jm_earley.specs.DeadSets.{IsAvailable, AreDeadSets};

use crate::letter_set::LetterSet;
use jm_grammar::Grammar;
use jm_model::NoMemory;
use std::alloc::Global;

/// The sets of letters that sets of dead parameters leave, each once, and for each of the 256 sets of dead parameters
/// the number of its set of letters.
#[derive(Drop)]
pub(crate) struct DeadSets {
    sets: Vec<LetterSet>,
    numbers: Vec<usize>,
}

impl DeadSets {
    /// The sets for the letters with these masks of parameters.
    pub(crate) fn new(alloc: Global, grammar: &Grammar, params: &[u8]) -> Result<DeadSets, NoMemory>
        requires { length params.now ≤ 32 }
        ensures { IfOk result (λ d. AreDeadSets grammar.now.productions params.now d) }
    {
        let mut sets = Vec::new(alloc);
        let mut numbers = Vec::new(alloc);
        for dead in 0..256u16 {
            let letters = available(params, dead as u8);
            let number = number_of(&mut sets, grammar, letters)?;
            numbers.push(number)?;
        }
        Ok(DeadSets { sets, numbers })
    }

    /// The sets of letters.
    pub(crate) fn sets(&self) -> &[LetterSet]
        ensures { result.now ≡ self.now.sets.items }
    {
        self.sets.as_slice()
    }

    /// The number of the set of letters that a set of dead parameters leaves, if it has one.
    pub(crate) fn number(&self, dead: u8) -> Option<usize>
        ensures { result ≡ slice_get self.now.numbers.items dead }
    {
        self.numbers.get(usize::from(dead)).copied()
    }
}

/// The letters that a set of dead parameters leaves.
fn available(params: &[u8], dead: u8) -> u32
    requires { length params.now ≤ 32 }
    ensures { (letter : ℕ) → IsBitSet result letter ↔ IsAvailable params.now dead letter }
{
    let mut letters = 0;
    for (letter, mask) in params.iter().enumerate() {
        if mask & dead == 0 {
            letters |= 1 << letter;
        }
    }
    letters
}

/// The number of the set of these letters, which is added if it is new.
fn number_of(sets: &mut Vec<LetterSet>, grammar: &Grammar, letters: u32) -> Result<usize, NoMemory>
    ensures exact { OnOk result (All (IsExact grammar.now.productions) sets.old.items
        → All (IsExact grammar.now.productions) sets.new.items) }
    ensures kept { OnOk result ((added : List LetterSet) × (sets.new.items ≡ sets.old.items ++ added)) }
    ensures found { IfOk result (λ number. (set : LetterSet) × (slice_get sets.new.items number ≡ Some set)
        × (set.letters ≡ letters)) }
{
    for (number, set) in sets.iter().enumerate() {
        if set.letters == letters {
            return Ok(number);
        }
    }
    let number = sets.len();
    let set = LetterSet::new(*sets.allocator(), grammar, letters)?;
    sets.push(set)?;
    Ok(number)
}
