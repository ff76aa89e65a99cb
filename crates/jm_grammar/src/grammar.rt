ghost use Rattle.std.specs.Prelude.{◌≡◌, ◌<◌, All, IfOk, IfErr};
ghost use Rattle.jm_grammar.specs.Categories.{category_names};
ghost use Rattle.jm_grammar.specs.Grammars.{IsSmall, HasSmallNumbers};

use jm_events::Names;
use jm_model::{Letter, NoMemory};
use jm_reading::Items;
use std::alloc::Global;
use std::marker::Model;

/// How many productions a grammar has room for.
const MAX_PRODUCTIONS: usize = 65_536;

/// How many symbols it has room for in each.
const MAX_SYMBOLS: usize = 32;

/// A symbol of a production: an event, or a nonterminal of the grammar.
#[derive(Clone, Copy, Debug, PartialEq, Eq)]
pub enum GrammarSymbol {
    /// The letter of an event, below 32.
    Letter(Letter),
    /// The number of a nonterminal, below 64.
    Nonterminal(u8),
}

/// A production: a nonterminal, and one of its alternatives, in which `epsilon` is left out.
#[derive(Drop)]
pub struct Production {
    pub left: u8,
    pub symbols: Items<GrammarSymbol>,
}

/// A grammar of at most 64 nonterminals and 65,536 productions of at most 32 symbols. Contracts see it as its
/// `GrammarDefinition`.
#[derive(Drop)]
pub struct Grammar {
    productions: Vec<Production>,
    start: u8,
}

impl Model for Grammar {
    ghost use Rattle.jm_grammar.specs.Grammars.{GrammarDefinition, IsSmall};

    ghost Value = { GrammarDefinition };

    ghost view = { λ g. record { productions = g.productions.items; start = g.start } };

    ghost invariant = { λ g. IsSmall g.productions.items g.start };
}

impl Grammar {
    /// The grammar of these productions and this start.
    pub(crate) fn new(productions: Vec<Production>, start: u8) -> Grammar
        requires { IsSmall productions.items start }
        ensures { result ≡ record { productions = productions.items; start = start } }
    {
        Grammar { productions, start }
    }

    /// The grammar of this start and these productions. A grammar has no memory for more than 65,536 productions, or 32
    /// symbols in one.
    pub fn of(start: u8, productions: Vec<Production>) -> Result<Grammar, NoMemory>
        requires start { start < 64 }
        requires numbers { All HasSmallNumbers productions.items }
        ensures ok { IfOk result (λ g. g ≡ record { productions = productions.items; start = start }) }
        ensures err { IfErr result (λ _. IsSmall productions.items start → ⊥) }
    {
        let are_short = productions.iter().all(|production| production.symbols.as_slice().len()
            <= MAX_SYMBOLS);
        if productions.len() <= MAX_PRODUCTIONS && are_short {
            Ok(Grammar { productions, start })
        } else {
            Err(NoMemory)
        }
    }

    /// The productions, in order. An alternative is a production of its own.
    pub fn productions(&self) -> &[Production]
        ensures value { result.now ≡ self.now.productions }
        ensures small { IsSmall self.now.productions self.now.start }
    {
        self.productions.as_slice()
    }

    /// The nonterminal that spells the words of the language, below 64.
    pub fn start(&self) -> u8
        ensures value { result ≡ self.now.start }
        ensures small { IsSmall self.now.productions self.now.start }
    {
        self.start
    }

    /// The names of the categories, `match` and `fail`. The number of a name is the category's number.
    pub fn categories(&self, alloc: Global) -> Result<Names, NoMemory>
        ensures { IfOk result (λ names. names ≡ category_names) }
    {
        let mut names = Names::new(alloc);
        names.add("match")?;
        names.add("fail")?;
        Ok(names)
    }

    pub(crate) fn allocator(&self) -> Global {
        *self.productions.allocator()
    }
}

impl Production {
    /// An equal production.
    pub fn copy(&self, alloc: Global) -> Result<Production, NoMemory>
        ensures { IfOk result (λ p. p ≡ self.now) }
    {
        let symbols = Items::from_slice(alloc, self.symbols.as_slice())?;
        Ok(Production {
            left: self.left,
            symbols,
        })
    }
}
