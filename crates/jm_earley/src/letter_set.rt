//! Which symbols spell words of some letters.
ghost use Rattle.std.specs.Prelude.{◌≡◌, IfOk};
ghost use Rattle.jm_earley.specs.LetterSets.{IsExact, are_spelled, has_letter, nonterminals, can_spell, can_go_on, spelling_rule};

use crate::rule::{Rule, contains, gained, has, no_rule, only};
use jm_grammar::{Grammar, GrammarSymbol, Production};
use jm_model::NoMemory;
use std::alloc::Global;

/// A set of letters, with the nonterminals that spell a word of them, and those that spell one of one or more.
#[derive(Clone, Copy)]
pub(crate) struct LetterSet {
    pub letters: u32,
    pub spells: u64,
    pub goes_on: u64,
}

impl LetterSet {
    /// The set of these letters.
    pub(crate) fn new(alloc: Global, grammar: &Grammar, letters: u32) -> Result<LetterSet, NoMemory>
        ensures letters { IfOk result (λ set. set.letters ≡ letters) }
        ensures exact { IfOk result (λ set. IsExact grammar.now.productions set) }
    {
        let spells = grammar.productive(letters);
        let mut rules = Vec::new(alloc);
        for production in grammar.productions() {
            rules.push(spelling_rule(production, letters, spells))?;
        }
        let goes_on = gained(rules.as_slice());
        Ok(LetterSet {
            letters,
            spells,
            goes_on,
        })
    }

    /// Whether the symbols spell a word of the letters.
    pub(crate) fn can_spell(self, symbols: &[GrammarSymbol]) -> bool
        ensures { result ≡ can_spell self symbols.now }
    {
        are_spelled(symbols, self.letters, self.spells)
    }

    /// Whether one of the symbols spells a word of one or more of the letters.
    pub(crate) fn can_go_on(self, symbols: &[GrammarSymbol]) -> bool
        ensures { result ≡ can_go_on self symbols.now }
    {
        has_letter(symbols) || nonterminals(symbols) & self.goes_on != 0
    }
}

fn are_spelled(symbols: &[GrammarSymbol], letters: u32, known: u64) -> bool
    ensures { result ≡ are_spelled letters known symbols.now }
{
    symbols.iter().all(|symbol| match symbol {
        GrammarSymbol::Letter(letter) => letter.0 < 32 && contains(u64::from(letters), letter.0),
        GrammarSymbol::Nonterminal(n) => has(known, *n),
    })
}

fn has_letter(symbols: &[GrammarSymbol]) -> bool
    ensures { result ≡ has_letter symbols.now }
{
    symbols
        .iter()
        .any(|symbol| matches!(symbol, GrammarSymbol::Letter(_)))
}

/// The nonterminals among the symbols.
fn nonterminals(symbols: &[GrammarSymbol]) -> u64
    ensures { result ≡ nonterminals symbols.now }
{
    let mut known = 0;
    for symbol in symbols {
        if let GrammarSymbol::Nonterminal(n) = symbol {
            known |= only(*n);
        }
    }
    known
}

fn spelling_rule(production: &Production, letters: u32, known: u64) -> Rule
    ensures { result ≡ spelling_rule letters known production.now }
{
    let symbols = production.symbols.as_slice();
    if are_spelled(symbols, letters, known) {
        Rule {
            gives: only(production.left),
            any: nonterminals(symbols),
            always: has_letter(symbols),
        }
    } else {
        no_rule()
    }
}
