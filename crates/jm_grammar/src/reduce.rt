//! A grammar without what spells no word.
ghost use Rattle.std.specs.Prelude.{ℕ, ◌≡◌, ◌↔◌, ◌⊎◌, List, Contains, IfOk};
ghost use Rattle.jm_grammar.specs.declared.grammar.Production.{Production};
ghost use Rattle.jm_grammar.specs.Meanings.{IsWord, IsIn, DerivesSome};
ghost use Rattle.jm_grammar.specs.Rounds.{are_known};

use crate::grammar::{Grammar, Production};
use crate::productive::are_known;
use jm_model::NoMemory;
use std::alloc::Global;

impl Grammar {
    /// A grammar of the same words and start, in which no nonterminal but the start spells no word. Its productions are
    /// some of these, in their order.
    pub fn reduce(&self) -> Result<Grammar, NoMemory>
        ensures words { IfOk result (λ g. (word : List ℕ) → IsWord g word ↔ IsWord self.now word) }
        ensures spell { IfOk result (λ g. (n : ℕ) → IsIn g.productions n → DerivesSome g.productions n) }
        ensures start { IfOk result (λ g. g.start ≡ self.now.start) }
        ensures kept { IfOk result (λ g. (p : Production) → Contains g.productions p
            → Contains self.now.productions p) }
    {
        let known = self.productive(u32::MAX);
        let alloc = self.allocator();
        let mut kept = Vec::new(alloc);
        for production in self.productions() {
            if are_known(production.symbols.as_slice(), u32::MAX, known) {
                kept.push(production.copy(alloc)?)?;
            }
        }
        Ok(Grammar::new(kept, self.start()))
    }
}
