//! Second forms of nonterminals, which spell their words of a letter or more, and the start that may begin anywhere.
ghost use Rattle.std.specs.Prelude.{◌≡◌, ◌+◌, ◌<◌, ◌++◌, ◌∷◌, All, IfOk, OnOk};
ghost use Rattle.jm_grammar.specs.Grammars.{IsSymbolWithin, IsProductionWithin};
ghost use Rattle.jm_suffix.specs.Seconds.{second, can_be_empty, second_forms, all_second_forms, start_behind, start_forms};

use jm_grammar::{GrammarSymbol, Production};
use jm_model::{Letter, NoMemory};
use jm_reading::Items;
use std::alloc::Global;

/// How far the number of a second form is from that of its nonterminal.
const SECOND: u8 = 31;

/// The number of the new start.
pub(crate) const START: u8 = 62;

/// The second form of a symbol: a letter is its own.
fn second(symbol: GrammarSymbol) -> GrammarSymbol
    requires { IsSymbolWithin 31 symbol }
    ensures { result ≡ second symbol }
{
    match symbol {
        GrammarSymbol::Letter(letter) => GrammarSymbol::Letter(letter),
        GrammarSymbol::Nonterminal(n) => GrammarSymbol::Nonterminal(n + SECOND),
    }
}

/// Whether the symbol is among the nonterminals that spell the empty word, which stand in `empty` by their bits.
fn can_be_empty(symbol: GrammarSymbol, empty: u64) -> bool
    requires { IsSymbolWithin 31 symbol }
    ensures { result ≡ can_be_empty empty symbol }
{
    match symbol {
        GrammarSymbol::Letter(_) => false,
        GrammarSymbol::Nonterminal(n) => (empty >> n) % 2 == 1,
    }
}

/// The production that begins with the second form of a symbol.
fn second_form(
    alloc: Global,
    left: u8,
    symbol: GrammarSymbol,
    rest: &[GrammarSymbol],
) -> Result<Production, NoMemory>
    requires { IsSymbolWithin 31 symbol }
    ensures { IfOk result (λ p. p ≡ record { left = left; symbols = second symbol ∷ rest.now }) }
{
    let mut symbols = Vec::new(alloc);
    symbols.push(second(symbol))?;
    symbols.extend_from_slice(rest)?;
    let symbols = Items::from_slice(alloc, symbols.as_slice())?;
    Ok(Production { left, symbols })
}

/// Adds the productions of a second form for one production of what it is a form of: for each symbol whose earlier
/// symbols can all be empty, its second form and what stands after it.
fn add_forms(
    alloc: Global,
    productions: &mut Vec<Production>,
    production: &Production,
    empty: u64,
) -> Result<(), NoMemory>
    requires { IsProductionWithin 31 production.now }
    ensures { OnOk result (productions.new.items
        ≡ productions.old.items ++ second_forms empty (production.now.left + 31) production.now.symbols) }
{
    let left = production.left + SECOND;
    let symbols = production.symbols.as_slice();
    for place in 0..symbols.len() {
        let symbol = symbols[place];
        productions.push(second_form(alloc, left, symbol, &symbols[place + 1..])?)?;
        if !can_be_empty(symbol, empty) {
            return Ok(());
        }
    }
    Ok(())
}

/// Adds the productions of all second forms.
pub(crate) fn add_all_forms(
    alloc: Global,
    productions: &mut Vec<Production>,
    own: &[Production],
    empty: u64,
) -> Result<(), NoMemory>
    requires { All (IsProductionWithin 31) own.now }
    ensures { OnOk result (productions.new.items ≡ productions.old.items ++ all_second_forms empty own.now) }
{
    for production in own {
        add_forms(alloc, productions, production, empty)?;
    }
    Ok(())
}

/// The production by which the new start goes on after a letter.
fn start_behind(alloc: Global, letter: u8) -> Result<Production, NoMemory>
    ensures { IfOk result (λ p. p ≡ start_behind letter) }
{
    let symbols = [
        GrammarSymbol::Letter(Letter(letter)),
        GrammarSymbol::Nonterminal(START),
    ];
    let symbols = Items::from_slice(alloc, &symbols)?;
    Ok(Production {
        left: START,
        symbols,
    })
}

/// Adds the productions of the new start: one for each letter below the number, and one for the second form of the old
/// start.
pub(crate) fn add_start_forms(
    alloc: Global,
    productions: &mut Vec<Production>,
    letters: u8,
    start: u8,
) -> Result<(), NoMemory>
    requires { start < 31 }
    ensures { OnOk result (productions.new.items ≡ productions.old.items ++ start_forms letters start) }
{
    for letter in 0..letters {
        productions.push(start_behind(alloc, letter)?)?;
    }
    let symbols = Items::from_slice(alloc, &[GrammarSymbol::Nonterminal(start + SECOND)])?;
    productions.push(Production {
        left: START,
        symbols,
    })?;
    Ok(())
}

/// Adds equal productions.
pub(crate) fn add_copies(
    alloc: Global,
    productions: &mut Vec<Production>,
    own: &[Production],
) -> Result<(), NoMemory>
    ensures { OnOk result (productions.new.items ≡ productions.old.items ++ own.now) }
{
    for production in own {
        productions.push(production.copy(alloc)?)?;
    }
    Ok(())
}
