//! Context-free grammars.

ghost use Rattle.std.specs.Prelude.{◌<◌, ◌↔◌, All, IsTrue};
ghost use Rattle.jm_grammar.specs.Grammars.{IsSmallSymbol, HasSmallNumbers};

use crate::written::{add_productions, productions_of};
use jm_events::EventTable;
use jm_grammar::{Grammar, GrammarSymbol, Production, read};
use jm_model::SpecError;
use std::alloc::{AllocError, Global};
use testkit::{Case, byte_of, text_of};
use testkit_tokens::{events_of, or_fault, tokens_of};

/// What a case asks of its formula, over its events, or the formula's fault: the start and the productions (`grammar`),
/// the same without what spells no word (`reduce`), how many productions there are (`size`), the same where the rule
/// may begin anywhere (`suffix`), or the nonterminals that spell a word of the letters after the events, by their bits
/// (`productive`).
pub(crate) fn answer(alloc: Global, case: &Case) -> Result<String, AllocError> {
    or_fault(alloc, case_text(alloc, case))
}

fn case_text(alloc: Global, case: &Case) -> Result<String, SpecError> {
    let events = events_of(alloc, &case.first)?;
    formula_text(alloc, case, &events)
}

fn formula_text(alloc: Global, case: &Case, events: &EventTable) -> Result<String, SpecError> {
    let suffix = case.verb.as_str() == "suffix";
    let grammar = grammar_of(alloc, events, &case.text, suffix)?;
    match case.verb.as_str() {
        "reduce" => reduced_text(alloc, &grammar),
        "productive" => productive_text(alloc, &grammar, &case.second),
        "size" | "suffix" => size_text(alloc, &grammar),
        _ => grammar_text(alloc, &grammar),
    }
}

fn reduced_text(alloc: Global, grammar: &Grammar) -> Result<String, SpecError> {
    let reduced = grammar.reduce()?;
    grammar_text(alloc, &reduced)
}

fn productive_text(alloc: Global, grammar: &Grammar, letters: &str) -> Result<String, SpecError> {
    let letters = letters.parse::<u32>().unwrap_or(u32::MAX);
    Ok(format!(in alloc; "{}", grammar.productive(letters))?)
}

fn size_text(alloc: Global, grammar: &Grammar) -> Result<String, SpecError> {
    Ok(format!(in alloc; "{}", grammar.productions().len())?)
}

fn grammar_text(alloc: Global, grammar: &Grammar) -> Result<String, SpecError> {
    let mut out = format!(in alloc; "{}: ", grammar.start())?;
    add_productions(alloc, &mut out, grammar.productions())?;
    Ok(out)
}

/// Of the grammar of a case's productions and its start, if its numbers are within the limits: how many productions
/// there are, what is left without those that spell no word, and the nonterminals that spell a word of these letters,
/// by their bits.
pub(crate) fn made(alloc: Global, case: &Case) -> Result<String, AllocError> {
    or_fault(alloc, made_shown(alloc, case))
}

fn made_shown(alloc: Global, case: &Case) -> Result<String, SpecError> {
    let productions = productions_of(alloc, text_of(&case.text))?;
    let start = byte_of(&case.first);
    if start >= 64 || !are_numbered(&productions) {
        return Ok(String::from_str(alloc, "no such grammar")?);
    }
    let grammar = Grammar::of(start, productions)?;
    made_text(alloc, &grammar, &case.second)
}

fn are_numbered(productions: &[Production]) -> bool
    ensures { IsTrue result ↔ All HasSmallNumbers productions.now }
{
    productions.iter().all(|production| is_numbered(production))
}

fn is_numbered(production: &Production) -> bool
    ensures { IsTrue result ↔ HasSmallNumbers production.now }
{
    production.left < 64 && are_small_symbols(production.symbols.as_slice())
}

fn are_small_symbols(symbols: &[GrammarSymbol]) -> bool
    ensures { IsTrue result ↔ All IsSmallSymbol symbols.now }
{
    symbols.iter().all(|symbol| is_small_symbol(*symbol))
}

fn is_small_symbol(symbol: GrammarSymbol) -> bool
    ensures { IsTrue result ↔ IsSmallSymbol symbol }
{
    match symbol {
        GrammarSymbol::Letter(letter) => letter.0 < 32,
        GrammarSymbol::Nonterminal(n) => n < 64,
    }
}

fn made_text(alloc: Global, grammar: &Grammar, letters: &str) -> Result<String, SpecError> {
    let reduced = grammar.reduce()?;
    let productive = grammar.productive(letters.parse::<u32>().unwrap_or(u32::MAX));
    Ok(counts_text(alloc, grammar, &reduced, productive)?)
}

fn counts_text(
    alloc: Global,
    grammar: &Grammar,
    reduced: &Grammar,
    productive: u64,
) -> Result<String, AllocError> {
    let (all, kept) = (grammar.productions().len(), reduced.productions().len());
    let start = reduced.start();
    format!(in alloc; "{all} productions, {kept} from {start}, productive {productive}")
}

/// The grammar of a formula, which stands after a token on line 50.
fn grammar_of(
    alloc: Global,
    events: &EventTable,
    formula: &[u8],
    suffix: bool,
) -> Result<Grammar, SpecError> {
    let all = tokens_of(alloc, formula)?;
    read(alloc, formula, &all, 50, events, suffix)
}
