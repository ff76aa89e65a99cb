//! Productions as they are written in cases: the number of the left side, and then the symbols, where `e3` is letter 3
//! and `n3` nonterminal 3.

use jm_grammar::{GrammarSymbol, Production};
use jm_model::{Letter, SpecError};
use jm_reading::Items;
use std::alloc::{AllocError, Global};
use testkit::byte_of;

/// The productions of a text, with a `;` between any two.
pub(crate) fn productions_of(alloc: Global, text: &str) -> Result<Vec<Production>, SpecError> {
    let mut productions = Vec::new(alloc);
    for production in text.split(';') {
        productions.push(production_of(alloc, production.trim())?)?;
    }
    Ok(productions)
}

fn production_of(alloc: Global, text: &str) -> Result<Production, SpecError> {
    let (left, rest) = text.split_once(' ').unwrap_or((text, ""));
    let mut symbols = Items::new(alloc);
    for word in rest.split_whitespace() {
        symbols.push(symbol_of(word))?;
    }
    Ok(Production {
        left: byte_of(left),
        symbols,
    })
}

fn symbol_of(word: &str) -> GrammarSymbol {
    match word.strip_prefix('e') {
        Some(letter) => GrammarSymbol::Letter(Letter(byte_of(letter))),
        None => GrammarSymbol::Nonterminal(byte_of(word.strip_prefix('n').unwrap_or(""))),
    }
}

/// Adds the productions in the same form.
pub(crate) fn add_productions(
    alloc: Global,
    out: &mut String,
    productions: &[Production],
) -> Result<(), AllocError> {
    let mut separator = "";
    for production in productions {
        out.push_str(separator)?;
        add_production(alloc, out, production)?;
        separator = "; ";
    }
    Ok(())
}

fn add_production(
    alloc: Global,
    out: &mut String,
    production: &Production,
) -> Result<(), AllocError> {
    add_number(alloc, out, "", production.left)?;
    for symbol in production.symbols.as_slice() {
        add_symbol(alloc, out, *symbol)?;
    }
    Ok(())
}

fn add_symbol(alloc: Global, out: &mut String, symbol: GrammarSymbol) -> Result<(), AllocError> {
    match symbol {
        GrammarSymbol::Letter(letter) => add_number(alloc, out, " e", letter.0),
        GrammarSymbol::Nonterminal(n) => add_number(alloc, out, " n", n),
    }
}

fn add_number(alloc: Global, out: &mut String, front: &str, number: u8) -> Result<(), AllocError> {
    let text = format!(in alloc; "{front}{number}")?;
    out.push_str(&text)
}
