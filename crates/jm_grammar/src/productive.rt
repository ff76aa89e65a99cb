//! Which nonterminals spell a word of some letters: a set of them grows by what the productions add, until it stays.
ghost use Rattle.std.specs.Prelude.{ℕ, ◌≡◌, ◌↔◌, ◌<◌, ◌≤◌, All, IsBitSet, true};
ghost use Rattle.jm_grammar.specs.Grammars.{IsSmallSymbol};
ghost use Rattle.jm_grammar.specs.Meanings.{DerivesOf};
ghost use Rattle.jm_grammar.specs.Rounds.{has_bit, are_known};

use crate::grammar::{Grammar, GrammarSymbol};

/// Whether the set, of which bit k stands for number k, has this number.
fn contains(set: u64, number: u8) -> bool
    requires { number < 64 }
    ensures { result ≡ has_bit set number }
{
    (set >> number) % 2 == 1
}

/// Whether each symbol is one of these letters and nonterminals.
pub(crate) fn are_known(symbols: &[GrammarSymbol], letters: u32, known: u64) -> bool
    requires { All IsSmallSymbol symbols.now }
    ensures { result ≡ are_known letters known symbols.now }
{
    symbols.iter().all(|symbol| match symbol {
        GrammarSymbol::Letter(letter) => contains(u64::from(letters), letter.0),
        GrammarSymbol::Nonterminal(n) => contains(known, *n),
    })
}

impl Grammar {
    /// Bit n is set exactly where nonterminal n spells a word of these letters, of which bit k stands for letter k.
    pub fn productive(&self, letters: u32) -> u64
        ensures { (n : ℕ) → IsBitSet result n ↔ DerivesOf self.now.productions letters n }
    {
        let productions = self.productions();
        let mut known = 0;
        'rounds: loop {
            let mut next = known;
            for production in productions {
                if are_known(production.symbols.as_slice(), letters, next) {
                    next |= 1 << production.left;
                }
            }
            if next == known {
                return known;
            }
            known = next;
        }
    }
}
