//! Grammars of rules that may begin anywhere.
ghost use Rattle.std.specs.Prelude.{◌≡◌, ◌<◌, ◌≤◌, ◌↔◌, ℕ, List, All, IfOk, IsBitSet};
ghost use Rattle.jm_ere.specs.Suffixes.{EndsIn};
ghost use Rattle.jm_grammar.specs.Grammars.{AreBelow, IsWithin};
ghost use Rattle.jm_grammar.specs.Meanings.{IsWord, DerivesOf};
ghost use Rattle.jm_suffix.specs.Seconds.{suffixed_productions};

use crate::forms::{START, add_all_forms, add_copies, add_start_forms};
use jm_grammar::{Grammar, Production};
use jm_model::NoMemory;
use std::alloc::Global;

/// The grammar of the words, over the given number of letters, that end in a word of this one, of a letter or more.
///
/// Each nonterminal gets a second form, which spells its words of a letter or more, and a new start puts any letters in
/// front of the second form of the old one. A grammar has no memory for more than 65,536 productions.
pub fn suffix_grammar(alloc: Global, grammar: Grammar, letters: u8) -> Result<Grammar, NoMemory>
    requires bounded { IsWithin 31 grammar }
    requires below { AreBelow grammar.productions letters }
    requires most { letters ≤ 32 }
    ensures words { IfOk result (λ g. (word : List ℕ) → IsWord g word
        ↔ (All (λ letter. letter < letters) word × EndsIn (IsWord grammar) word)) }
    ensures below { IfOk result (λ g. AreBelow g.productions letters) }
{
    let productions = suffixed_productions(alloc, &grammar, letters)?;
    Grammar::of(START, productions)
}

/// The productions of that grammar.
fn suffixed_productions(
    alloc: Global,
    grammar: &Grammar,
    letters: u8,
) -> Result<Vec<Production>, NoMemory>
    requires { IsWithin 31 grammar.now }
    ensures { IfOk result (λ productions. (empty : ℕ)
        × ((n : ℕ) → IsBitSet empty n ↔ DerivesOf grammar.now.productions 0 n)
        × (productions.items ≡ suffixed_productions empty letters grammar.now)) }
{
    let empty = grammar.productive(0);
    let mut productions = Vec::new(alloc);
    add_copies(alloc, &mut productions, grammar.productions())?;
    add_all_forms(alloc, &mut productions, grammar.productions(), empty)?;
    add_start_forms(alloc, &mut productions, letters, grammar.start())?;
    Ok(productions)
}
