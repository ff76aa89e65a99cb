ghost use Rattle.std.specs.Prelude.{ℕ, ◌≡◌, ◌<◌, ◌≤◌, ◌*◌, ◌⊎◌, ◌↔◌, IsTrue, Contains, length};

use std::marker::Model;

/// A set of numbers below 64 * WORDS: a bit for each. Contracts see it as the list of its numbers, in order.
#[derive(Drop)]
pub struct NumberSet<const WORDS: usize> {
    words: [u64; WORDS],
}

impl<const WORDS: usize> Model for NumberSet<WORDS> {
    ghost use Rattle.std.specs.Prelude.{ℕ, List};
    ghost use Rattle.jm_table.specs.NumberSets.{numbers_of};

    ghost Value = { List ℕ };

    ghost view = { λ s. numbers_of s.words };
}

impl<const WORDS: usize> NumberSet<WORDS> {
    /// No number.
    pub fn new() -> NumberSet<WORDS>
        ensures { (number : ℕ) → ¬ Contains result number }
    {
        NumberSet { words: [0; WORDS] }
    }

    /// Whether the number is in the set.
    pub fn contains(&self, number: u16) -> bool
        requires { number < 64 * WORDS }
        ensures member { IsTrue result ↔ Contains self.now number }
        ensures below { (other : ℕ) → Contains self.now other → other < 64 * WORDS }
    {
        (self.words[number as usize / 64] >> (number % 64)) & 1 == 1
    }

    /// Puts a number into the set.
    pub fn insert(&mut self, number: u16)
        requires { number < 64 * WORDS }
        ensures member { (other : ℕ) → Contains self.new other ↔ (Contains self.old other ⊎ (other ≡ number)) }
        ensures longer { (Contains self.old number → ⊥) → length self.old < length self.new }
        ensures bounded { length self.new ≤ 64 * WORDS }
    {
        self.words[number as usize / 64] |= 1 << (number % 64);
    }
}
