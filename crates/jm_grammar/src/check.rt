//! What is wrong with a formula, step by step.
ghost use Rattle.std.specs.Prelude.{◌≡◌, ◌≤◌, ◌<◌, ◌≤◌, ◌+◌, ◌-◌, ◌^◌, [], IfOk, IfErr, OnOk, length, nat_lt, sum_by};
ghost use Rattle.jm_events.specs.Events.{event_names};
ghost use Rattle.jm_reading.specs.Names.{is_among};
ghost use Rattle.jm_reading.specs.Tokens.{name_of};
ghost use Rattle.jm_reading.specs.Faults.{Checks};
ghost use Rattle.jm_grammar.specs.Faults.{nonterminals, nonterminals_fault, productions_fault, is_epsilon, symbol_count, is_long, symbols_fault, left_name_fault, clash_fault};

use crate::formula::Part;
use jm_events::{EventTable, Names};
use jm_model::{Counted, SpecError, SpecFault};
use jm_reading::{GrammarWords, add_name, name_of};
use jm_text::Token;
use std::alloc::Global;

const MAX_NONTERMINALS: u32 = 64;

/// How many there may be where the rule may begin anywhere: its grammar has two for each, and one more.
const MAX_NONTERMINALS_OF_SUFFIX: u32 = 31;

const MAX_PRODUCTIONS: usize = 256;

const MAX_SYMBOLS: usize = 32;

/// The names of the left sides, in order of first mention.
pub fn nonterminals(alloc: Global, bytes: &[u8], parts: &[Part]) -> Result<Names, SpecError>
    ensures ok { IfOk result (λ names. names ≡ nonterminals bytes.now parts.now) }
    ensures err { IfErr result (λ e. e ≡ SpecError.NoMemory) }
{
    let mut names = Names::new(alloc);
    for part in parts {
        add_name(&mut names, name_of(bytes, part.left))?;
    }
    Ok(names)
}

/// There are at most 64 nonterminals, or 31 where the rule may begin anywhere.
pub fn check_nonterminals(
    bytes: &[u8],
    suffix: bool,
    parts: &[Part],
    known: &Names,
) -> Result<(), SpecError>
    requires { known.now ≡ nonterminals bytes.now parts.now }
    ensures checked { Checks result (nonterminals_fault bytes.now suffix parts.now) }
    ensures bounded { IfOk result (λ _. length known.now ≤ 64) }
{
    let most = if suffix {
        MAX_NONTERMINALS_OF_SUFFIX
    } else {
        MAX_NONTERMINALS
    };
    if known.len() > most {
        let what = Counted::Nonterminals;
        return Err(SpecFault::TooMany { what }.into());
    }
    Ok(())
}

/// There are at most 256 productions.
pub fn check_productions(parts: &[Part]) -> Result<(), SpecError>
    ensures { Checks result (productions_fault parts.now) }
{
    let mut count = 0;
    for part in parts {
        let more = part.alternatives.as_slice().len();
        if more > MAX_PRODUCTIONS - count {
            let what = Counted::Productions;
            return Err(SpecFault::TooMany { what }.into());
        }
        count += more;
    }
    Ok(())
}

/// Whether the name is the word that spells nothing.
pub fn is_epsilon(name: &str) -> bool
    ensures { result ≡ is_epsilon name.now }
{
    name == "epsilon"
}

/// The word that stands for something else than a symbol.
pub struct Words;

impl GrammarWords for Words {
    ghost reserved = { is_epsilon };

    fn is_reserved(name: &str) -> bool {
        is_epsilon(name)
    }
}

/// Whether there are more than 32 symbols other than `epsilon`.
fn is_long(bytes: &[u8], symbols: &[Token]) -> bool
    ensures { result ≡ is_long bytes.now symbols.now }
{
    symbols
        .iter()
        .filter(|symbol| !is_epsilon(name_of(bytes, **symbol)))
        .count()
        > MAX_SYMBOLS
}

/// There are at most 32 symbols other than `epsilon` in each alternative.
pub fn check_symbols(bytes: &[u8], parts: &[Part]) -> Result<(), SpecError>
    ensures { Checks result (symbols_fault bytes.now parts.now) }
{
    for part in parts {
        for symbols in part.alternatives.as_slice() {
            if is_long(bytes, symbols.as_slice()) {
                let what = Counted::Symbols;
                return Err(SpecFault::TooMany { what }.into());
            }
        }
    }
    Ok(())
}

/// No nonterminal is named `epsilon`.
pub fn check_left_names(bytes: &[u8], parts: &[Part]) -> Result<(), SpecError>
    ensures { Checks result (left_name_fault bytes.now parts.now) }
{
    for part in parts {
        if is_epsilon(name_of(bytes, part.left)) {
            let line = part.left.line;
            return Err(SpecFault::ReservedName { line }.into());
        }
    }
    Ok(())
}

/// Whether an event has the name.
fn is_event(table: &EventTable, name: &str) -> bool
    ensures { result ≡ is_among (event_names table.now) name.now }
{
    table.letter(name).is_some()
}

/// No nonterminal has the name of an event.
pub fn check_clashes(bytes: &[u8], table: &EventTable, parts: &[Part]) -> Result<(), SpecError>
    ensures { Checks result (clash_fault bytes.now (event_names table.now) parts.now) }
{
    for part in parts {
        if is_event(table, name_of(bytes, part.left)) {
            let line = part.left.line;
            return Err(SpecFault::NameClash { line }.into());
        }
    }
    Ok(())
}
