//! Charts of grammars. A case has the grammar after its verb, and words in its text, where `-` is the empty word. The
//! events are `a` and `b`: the first has one parameter, and the second another.

ghost use Rattle.std.specs.Prelude.{◌≡◌, ◌≤◌, ◌↔◌, All, IsTrue, IfOk, length};
ghost use Rattle.jm_earley.specs.Charts.{IsBelow, AreBelow};

use jm_earley::{Chart, Charts};
use jm_events::EventTable;
use jm_grammar::{Grammar, GrammarSymbol, Production, read};
use jm_model::{Letter, NoMemory, SpecError};
use std::alloc::{AllocError, Global};
use testkit::{Case, put_number, text_of};
use testkit_tokens::{or_fault, tokens_of};

/// Which of the words are in the language, `y` or `n` for each (`matches`), what may follow (`futures`), the set of
/// parameters of each letter (`params`), or whether the empty word is in it and charts may cross threads (`crosses`).
pub(crate) fn answer(alloc: Global, case: &Case) -> Result<String, AllocError> {
    or_fault(alloc, case_text(alloc, case))
}

fn case_text(alloc: Global, case: &Case) -> Result<String, SpecError> {
    let events = events(alloc)?;
    formula_text(alloc, case, &events)
}

fn formula_text(alloc: Global, case: &Case, events: &EventTable) -> Result<String, SpecError> {
    let charts = charts_of(alloc, events, &case.first)?;
    let words = text_of(&case.text);
    match case.verb.as_str() {
        "matches" => matches_text(alloc, &charts, words, events.letters()),
        "futures" => futures_text(alloc, &charts, words, events.letters()),
        "params" => params_text(alloc, &charts),
        _ => crosses_text(alloc, &charts),
    }
}

fn matches_text(
    alloc: Global,
    charts: &Charts,
    words: &str,
    letters: u8,
) -> Result<String, SpecError>
    requires { letters ≤ length charts.now.params }
{
    let mut out = String::new(alloc);
    for word in words.split_whitespace() {
        out.push(mark(is_in(charts, word, letters)?))?;
    }
    Ok(out)
}

fn is_in(charts: &Charts, word: &str, letters: u8) -> Result<bool, NoMemory>
    requires { letters ≤ length charts.now.params }
{
    let chart = chart_of(charts, word, letters)?;
    Ok(charts.matches(&chart))
}

/// For each of the words, whether it fails, and whether it is alive where no parameter is dead, where that of `a` is,
/// where that of `b` is, and where both are: `y` or `n` for each.
fn futures_text(
    alloc: Global,
    charts: &Charts,
    words: &str,
    letters: u8,
) -> Result<String, SpecError>
    requires { letters ≤ length charts.now.params }
{
    let mut out = String::new(alloc);
    for word in words.split_whitespace() {
        if !out.is_empty() {
            out.push(' ')?;
        }
        add_future(&mut out, charts, word, letters)?;
    }
    Ok(out)
}

fn add_future(out: &mut String, charts: &Charts, word: &str, letters: u8) -> Result<(), SpecError>
    requires { letters ≤ length charts.now.params }
{
    let chart = chart_of(charts, word, letters)?;
    Ok(add_marks(out, charts, &chart)?)
}

fn add_marks(out: &mut String, charts: &Charts, chart: &Chart) -> Result<(), AllocError> {
    out.push(mark(charts.fails(chart)))?;
    for dead in 0..4 {
        out.push(mark(charts.alive(chart, dead)))?;
    }
    Ok(())
}

fn mark(answer: bool) -> char {
    if answer { 'y' } else { 'n' }
}

fn params_text(alloc: Global, charts: &Charts) -> Result<String, SpecError> {
    let mut out = String::new(alloc);
    let mut separator = "";
    for params in charts.params() {
        put_number(&mut out, alloc, separator, u16::from(*params))?;
        separator = " ";
    }
    Ok(out)
}

fn crosses_text(alloc: Global, charts: &Charts) -> Result<String, SpecError> {
    let chart = charts.begin()?;
    may_cross(charts);
    may_cross(&chart);
    let text = if charts.matches(&chart) {
        "crosses"
    } else {
        "no word"
    };
    Ok(String::from_str(alloc, text)?)
}

/// Takes what may cross threads.
fn may_cross<T: Send + Sync>(_value: &T) {}

fn events(alloc: Global) -> Result<EventTable, SpecError> {
    let mut events = EventTable::new(alloc);
    events.add_param("p", 1)?;
    events.add_param("q", 1)?;
    for (name, mask) in [("a", 1), ("b", 2)] {
        add_event(&mut events, name, mask)?;
    }
    Ok(events)
}

fn add_event(events: &mut EventTable, name: &str, mask: u8) -> Result<(), SpecError> {
    if mask < 4 && events.params() == 2 {
        events.add_event(name, mask, false, 1)?;
    }
    Ok(())
}

fn charts_of(alloc: Global, events: &EventTable, formula: &str) -> Result<Charts, SpecError>
    ensures { IfOk result (λ c. length c.params ≡ length events.now.events) }
{
    let grammar = grammar_of(alloc, events, formula.as_bytes())?;
    if !are_below(grammar.productions(), events.letters()) {
        return Err(SpecError::NoMemory);
    }
    Ok(Charts::new(alloc, grammar, events)?)
}

fn grammar_of(alloc: Global, events: &EventTable, formula: &[u8]) -> Result<Grammar, SpecError> {
    let all = tokens_of(alloc, formula)?;
    read(alloc, formula, &all, 50, events, false)
}

fn are_below(productions: &[Production], letters: u8) -> bool
    ensures { IsTrue result ↔ AreBelow productions.now letters }
{
    productions.iter().all(|production| are_symbols_below(production.symbols.as_slice(), letters))
}

fn are_symbols_below(symbols: &[GrammarSymbol], letters: u8) -> bool
    ensures { IsTrue result ↔ All (IsBelow letters) symbols.now }
{
    symbols.iter().all(|symbol| is_below(*symbol, letters))
}

fn is_below(symbol: GrammarSymbol, letters: u8) -> bool
    ensures { IsTrue result ↔ IsBelow letters symbol }
{
    match symbol {
        GrammarSymbol::Letter(letter) => letter.0 < letters,
        GrammarSymbol::Nonterminal(_) => true,
    }
}

/// The chart of a word of `a` and `b`.
fn chart_of(charts: &Charts, word: &str, letters: u8) -> Result<Chart, NoMemory>
    requires { letters ≤ length charts.now.params }
{
    let mut chart = charts.begin()?;
    for byte in word.bytes() {
        let letter = byte.wrapping_sub(b'a');
        if letter < letters {
            chart = charts.next(&chart, Letter(letter))?;
        }
    }
    charts.copy(&chart)
}
