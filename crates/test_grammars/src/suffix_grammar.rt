//! Context-free grammars. The events are `a` and `b`.

ghost use Rattle.std.specs.Prelude.{◌≡◌, ◌<◌, ◌≤◌, ◌↔◌, All, IsTrue, IfOk, length};
ghost use Rattle.jm_grammar.specs.Grammars.{IsBelow, AreBelow, IsSymbolWithin, IsProductionWithin, IsWithin};

use jm_earley::{Chart, Charts};
use jm_events::EventTable;
use jm_grammar::{Grammar, GrammarSymbol, Production, read};
use jm_model::{Letter, NoMemory, SpecError};
use jm_suffix::suffix_grammar;
use std::alloc::{AllocError, Global};
use testkit::{Case, text_of};
use testkit_tokens::{events_of, or_fault, tokens_of};

/// Of the grammar of a case, where its rule may begin anywhere: which of the words, where `-` is the empty one, are in
/// the language, `y` or `n` for each, or the fault.
pub(crate) fn answer(alloc: Global, case: &Case) -> Result<String, AllocError> {
    or_fault(alloc, case_text(alloc, case))
}

fn case_text(alloc: Global, case: &Case) -> Result<String, SpecError> {
    let events = events_of(alloc, "a b")?;
    let charts = charts_of(alloc, &events, case.first.as_bytes())?;
    words_text(alloc, &charts, text_of(&case.text), events.letters())
}

fn words_text(alloc: Global, charts: &Charts, words: &str, letters: u8) -> Result<String, SpecError>
    requires { letters ≤ length charts.now.params }
{
    let mut out = String::new(alloc);
    for word in words.split_whitespace() {
        out.push(mark(is_in(charts, word, letters)?))?;
    }
    Ok(out)
}

fn is_in(charts: &Charts, word: &str, letters: u8) -> Result<bool, NoMemory>
    requires { letters ≤ length charts.now.params }
{
    let chart = chart_of(charts, word, letters)?;
    Ok(charts.matches(&chart))
}

fn mark(answer: bool) -> char {
    if answer { 'y' } else { 'n' }
}

/// The chart of a word of `a` and `b`.
fn chart_of(charts: &Charts, word: &str, letters: u8) -> Result<Chart, NoMemory>
    requires { letters ≤ length charts.now.params }
{
    let mut chart = charts.begin()?;
    for byte in word.bytes() {
        let letter = byte.wrapping_sub(b'a');
        if letter < letters {
            chart = charts.next(&chart, Letter(letter))?;
        }
    }
    Ok(chart)
}

fn charts_of(alloc: Global, events: &EventTable, formula: &[u8]) -> Result<Charts, SpecError>
    ensures { IfOk result (λ c. length c.params ≡ length events.now.events) }
{
    let grammar = grammar_of(alloc, events, formula)?;
    let letters = events.letters();
    if letters > 32 || !is_within(&grammar) || !are_below(grammar.productions(), letters) {
        return Err(SpecError::NoMemory);
    }
    let grammar = suffix_grammar(alloc, grammar, letters)?;
    Ok(Charts::new(alloc, grammar, events)?)
}

/// The grammar of a formula, which stands after a token on line 50.
fn grammar_of(alloc: Global, events: &EventTable, formula: &[u8]) -> Result<Grammar, SpecError> {
    let all = tokens_of(alloc, formula)?;
    read(alloc, formula, &all, 50, events, true)
}

fn is_within(grammar: &Grammar) -> bool
    ensures { IsTrue result ↔ IsWithin 31 grammar.now }
{
    grammar.start() < 31 && are_within(grammar.productions())
}

fn are_within(productions: &[Production]) -> bool
    ensures { IsTrue result ↔ All (IsProductionWithin 31) productions.now }
{
    productions
        .iter()
        .all(|production| is_production_within(production))
}

fn is_production_within(production: &Production) -> bool
    ensures { IsTrue result ↔ IsProductionWithin 31 production.now }
{
    production.left < 31 && are_symbols_within(production.symbols.as_slice())
}

fn are_symbols_within(symbols: &[GrammarSymbol]) -> bool
    ensures { IsTrue result ↔ All (IsSymbolWithin 31) symbols.now }
{
    symbols.iter().all(|symbol| is_symbol_within(*symbol))
}

fn is_symbol_within(symbol: GrammarSymbol) -> bool
    ensures { IsTrue result ↔ IsSymbolWithin 31 symbol }
{
    match symbol {
        GrammarSymbol::Letter(_) => true,
        GrammarSymbol::Nonterminal(n) => n < 31,
    }
}

fn are_below(productions: &[Production], letters: u8) -> bool
    ensures { IsTrue result ↔ AreBelow productions.now letters }
{
    productions.iter().all(|production| are_symbols_below(production.symbols.as_slice(), letters))
}

fn are_symbols_below(symbols: &[GrammarSymbol], letters: u8) -> bool
    ensures { IsTrue result ↔ All (IsBelow letters) symbols.now }
{
    symbols.iter().all(|symbol| is_below(*symbol, letters))
}

fn is_below(symbol: GrammarSymbol, letters: u8) -> bool
    ensures { IsTrue result ↔ IsBelow letters symbol }
{
    match symbol {
        GrammarSymbol::Letter(letter) => letter.0 < letters,
        GrammarSymbol::Nonterminal(_) => true,
    }
}
