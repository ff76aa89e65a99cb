//! The grammar that a formula says.
ghost use Rattle.std.specs.Prelude.{◌≡◌, ◌≤◌, [], length, IfOk, None};
ghost use Rattle.jm_events.specs.Events.{event_names};
ghost use Rattle.jm_reading.specs.Faults.{Checks, Makes, Answers};
ghost use Rattle.jm_grammar.specs.Faults.{nonterminals, productions_fault, symbols_fault, nonterminal_said, with_symbol, with_part, grammar_of, first_fault};

use crate::check::{self, Words};
use crate::formula::Part;
use crate::grammar::{Grammar, GrammarSymbol, Production};
use jm_events::{EventTable, Names};
use jm_model::{SpecError, SpecFault};
use jm_reading::{Items, check_event_names, name_of};
use jm_text::Token;
use std::alloc::Global;

/// What the names of a formula stand for: events, or nonterminals.
#[derive(Clone, Copy)]
struct Resolver<'a> {
    bytes: &'a [u8],
    table: &'a EventTable,
    known: &'a Names,
    ghost few: { length known.now ≤ 64 },
}

impl<'a> Resolver<'a> {
    /// The number of a nonterminal.
    fn nonterminal(&self, token: Token) -> Result<u8, SpecError>
        ensures { Answers result (nonterminal_said self.now.bytes.now self.now.known.now token) }
    {
        match self.known.find(name_of(self.bytes, token)) {
            Some(number) => Ok(number as u8),
            None => {
                let line = token.line;
                Err(SpecFault::UnknownName { line }.into())
            }
        }
    }

    /// Adds a symbol, where it isn't `epsilon`.
    fn add_symbol(&self, symbols: &mut Items<GrammarSymbol>, token: Token) -> Result<(), SpecError>
        ensures { Makes result symbols.new
            (with_symbol self.now.bytes.now (event_names self.now.table.now) self.now.known.now symbols.old token) }
    {
        let name = name_of(self.bytes, token);
        if check::is_epsilon(name) {
            return Ok(());
        }
        let symbol = match self.table.letter(name) {
            Some(letter) => GrammarSymbol::Letter(letter),
            None => GrammarSymbol::Nonterminal(self.nonterminal(token)?),
        };
        symbols.push(symbol)
    }

    /// Adds the productions of a left side, one for each alternative.
    fn add_part(
        &self,
        alloc: Global,
        productions: &mut Items<Production>,
        part: &Part,
    ) -> Result<(), SpecError>
        ensures { Makes result productions.new (with_part
            self.now.bytes.now (event_names self.now.table.now) self.now.known.now productions.old part.now) }
    {
        let left = self.nonterminal(part.left)?;
        for alternative in part.alternatives.as_slice() {
            let mut symbols = Items::new(alloc);
            for token in alternative.as_slice() {
                self.add_symbol(&mut symbols, *token)?;
            }
            productions.push(Production { left, symbols })?;
        }
        Ok(())
    }
}

/// The grammar of a formula with these nonterminals, or its first name that isn't there.
#[tactic(auto, unfolding(crate::specs::Faults::grammar_of))]
fn known_grammar(
    alloc: Global,
    bytes: &[u8],
    table: &EventTable,
    known: &Names,
    parts: &[Part],
) -> Result<Grammar, SpecError>
    requires events { length table.now.events ≤ 32 }
    requires known { known.now ≡ nonterminals bytes.now parts.now }
    requires bounded { length known.now ≤ 64 }
    requires productions { productions_fault parts.now ≡ None }
    requires symbols { symbols_fault bytes.now parts.now ≡ None }
    ensures { Answers result (grammar_of bytes.now table.now parts.now) }
{
    let mut productions = Items::new(alloc);
    let resolver = Resolver {
        bytes,
        table,
        known,
    };
    for part in parts {
        resolver.add_part(alloc, &mut productions, part)?;
    }
    Ok(Grammar::new(productions.into_vec(), 0))
}

/// The grammar of a formula, or the fault of the first step that has one.
#[tactic(auto, unfolding(crate::specs::Faults::first_fault))]
pub fn grammar_of(
    alloc: Global,
    bytes: &[u8],
    parts: &[Part],
    table: &EventTable,
    suffix: bool,
) -> Result<Grammar, SpecError>
    ensures ok { IfOk result (λ g. grammar_of bytes.now table.now parts.now ≡ Ok g) }
    ensures checked { Checks result (first_fault bytes.now table.now suffix parts.now) }
{
    let known = check::nonterminals(alloc, bytes, parts)?;
    check::check_nonterminals(bytes, suffix, parts, &known)?;
    check::check_productions(parts)?;
    check::check_symbols(bytes, parts)?;
    check_event_names::<Words>(table)?;
    check::check_left_names(bytes, parts)?;
    check::check_clashes(bytes, table, parts)?;
    known_grammar(alloc, bytes, table, &known, parts)
}
