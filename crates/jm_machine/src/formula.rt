//! The formula of a property, in whichever logic.
ghost use Rattle.std.specs.Prelude.{if◌then◌else◌, ◌≡◌, ◌≤◌, length, IfOk, IfErr};
ghost use Rattle.std.specs.Option.{is_some};
ghost use Rattle.jm_model.specs.declared.fault.SpecFault.{SpecFault};
ghost use Rattle.jm_text.specs.Spans.{LieWithin};
ghost use Rattle.jm_table.specs.Explorations.{IfBad};
ghost use Rattle.jm_grammar.specs.Grammars.{IsWithin};
ghost use Rattle.jm_earley.specs.Charts.{AreBelow};
ghost use Rattle.jm_machine.specs.Formulas.{category_names, IsReadAs, IsRefusedIn, IsTableFault};
ghost use Rattle.jm_machine.specs.Engines.{HasLetters, IsMinimised, IsEngineOf};

use crate::engine::Engine;
use jm_earley::Charts;
use jm_ere::Ere;
use jm_events::{EventTable, Names};
use jm_fsm::Fsm;
use jm_grammar::Grammar;
use jm_model::{NoMemory, SpecError};
use jm_ptltl::Past;
use jm_spec::{Logic, SpecTree};
use jm_suffix::{suffix_ere, suffix_grammar};
use jm_table::Table;
use jm_text::Token;
use std::alloc::Global;

/// The formula of a property.
#[derive(Drop)]
pub enum Formula {
    /// A state machine.
    Machine(Fsm),
    /// A regular expression.
    Regular(Ere),
    /// A regular expression, as it is written, of a rule that may begin anywhere.
    RegularSuffix(Ere),
    /// A past-time formula.
    Temporal(Past),
    /// A context-free grammar.
    Grammatical(Grammar),
    /// A context-free grammar, as it is written, of a rule that may begin anywhere.
    GrammaticalSuffix(Grammar),
}

impl Formula {
    /// The formula of these tokens, in the logic, with the events of the tree. The token before them is on the line.
    /// Where `suffix` stands in the tree, the rule may begin anywhere.
    ///
    /// The fault is that of the logic's reader.
    pub(crate) fn read(
        alloc: Global,
        bytes: &[u8],
        tokens: &[Token],
        line: u32,
        logic: Logic,
        tree: &SpecTree,
    ) -> Result<Formula, SpecError>
        requires { LieWithin bytes.now tokens.now }
        ensures ok { IfOk result (IsReadAs bytes.now tokens.now tree.now.table logic (is_some tree.now.suffix)) }
        ensures err { IfErr result (λ e.
            IfBad e (IsRefusedIn bytes.now tokens.now tree.now.table logic (is_some tree.now.suffix))) }
    {
        let table = &tree.table;
        let suffix = tree.suffix.is_some();
        match logic {
            Logic::Fsm => {
                let machine = jm_fsm::read(alloc, bytes, tokens, line, table)?;
                Ok(Formula::Machine(machine))
            }
            Logic::Ere => {
                let expression = jm_ere::read(alloc, bytes, tokens, line, table)?;
                Ok(regular(expression, suffix))
            }
            Logic::Ptltl => {
                let past = jm_ptltl::read(alloc, bytes, tokens, line, table)?;
                Ok(Formula::Temporal(past))
            }
            Logic::Cfg => {
                let grammar = jm_grammar::read(alloc, bytes, tokens, line, table, suffix)?;
                Ok(grammatical(grammar, suffix))
            }
        }
    }

    /// The names of the categories. The number of a name is the category's group in the compiled table.
    pub(crate) fn categories(&self, alloc: Global) -> Result<Names, NoMemory>
        ensures value { IfOk result (λ names. names ≡ category_names self.now) }
        ensures bounded { IfOk result (λ names. length names ≤ 1280) }
    {
        match self {
            Formula::Machine(machine) => machine.categories(alloc),
            Formula::Regular(expression) => expression.categories(alloc),
            Formula::RegularSuffix(expression) => expression.categories(alloc),
            Formula::Temporal(past) => past.categories(alloc),
            Formula::Grammatical(grammar) => grammar.categories(alloc),
            Formula::GrammaticalSuffix(grammar) => grammar.categories(alloc),
        }
    }

    /// What runs the formula, whose letters are events of the table. A table is minimal.
    ///
    /// The fault is that of the logic's table, before it is made minimal.
    pub(crate) fn compile(&self, alloc: Global, events: &EventTable) -> Result<Engine, SpecError>
        requires { HasLetters (length events.now.events) self.now }
        ensures engine { IfOk result (IsEngineOf events.now.events self.now) }
        ensures settled { IfOk result (λ _. (fault : SpecFault) → IsTableFault self.now (length events.now.events) fault
            → ⊥) }
        ensures err { IfErr result (λ e. IfBad e (IsTableFault self.now (length events.now.events))) }
    {
        match self {
            Formula::Machine(machine) => runs_machine(alloc, machine, events),
            Formula::Regular(expression) => runs_regular(alloc, expression, events),
            Formula::RegularSuffix(expression) => runs_suffixes(alloc, expression, events),
            Formula::Temporal(past) => runs_temporal(alloc, past, events),
            Formula::Grammatical(grammar) => parses(alloc, grammar, events),
            Formula::GrammaticalSuffix(grammar) => parses_suffixes(alloc, grammar, events),
        }
    }
}

/// The formula of an expression, whose rule may begin anywhere or may not.
fn regular(expression: Ere, suffix: bool) -> Formula
    ensures { result ≡ (if suffix then Formula.RegularSuffix expression else Formula.Regular expression) }
{
    if suffix {
        Formula::RegularSuffix(expression)
    } else {
        Formula::Regular(expression)
    }
}

/// The formula of a grammar, whose rule may begin anywhere or may not.
fn grammatical(grammar: Grammar, suffix: bool) -> Formula
    ensures { result ≡ (if suffix then Formula.GrammaticalSuffix grammar else Formula.Grammatical grammar) }
{
    if suffix {
        Formula::GrammaticalSuffix(grammar)
    } else {
        Formula::Grammatical(grammar)
    }
}

/// The minimal table of a state machine.
fn runs_machine(alloc: Global, machine: &Fsm, events: &EventTable) -> Result<Engine, SpecError>
    ensures engine { IfOk result (IsEngineOf events.now.events (Formula.Machine machine.now)) }
    ensures settled { IfOk result (λ _. (fault : SpecFault) →
        IsTableFault (Formula.Machine machine.now) (length events.now.events) fault → ⊥) }
    ensures err { IfErr result (λ e. IfBad e (IsTableFault (Formula.Machine machine.now) (length events.now.events))) }
{
    minimal(machine.compile(alloc, events)?)
}

/// The minimal table of a regular expression.
fn runs_regular(alloc: Global, expression: &Ere, events: &EventTable) -> Result<Engine, SpecError>
    ensures engine { IfOk result (IsEngineOf events.now.events (Formula.Regular expression.now)) }
    ensures settled { IfOk result (λ _. (fault : SpecFault) →
        IsTableFault (Formula.Regular expression.now) (length events.now.events) fault → ⊥) }
    ensures err { IfErr result (λ e. IfBad e
        (IsTableFault (Formula.Regular expression.now) (length events.now.events))) }
{
    minimal(expression.compile(alloc, events)?)
}

/// The minimal table of the words that end in one of a regular expression.
fn runs_suffixes(alloc: Global, expression: &Ere, events: &EventTable) -> Result<Engine, SpecError>
    ensures engine { IfOk result (IsEngineOf events.now.events (Formula.RegularSuffix expression.now)) }
    ensures settled { IfOk result (λ _. (fault : SpecFault) →
        IsTableFault (Formula.RegularSuffix expression.now) (length events.now.events) fault → ⊥) }
    ensures err { IfErr result (λ e. IfBad e
        (IsTableFault (Formula.RegularSuffix expression.now) (length events.now.events))) }
{
    let changed = suffix_ere(alloc, expression.copy(alloc)?)?;
    minimal(changed.compile(alloc, events)?)
}

/// The minimal table of a past-time formula.
fn runs_temporal(alloc: Global, past: &Past, events: &EventTable) -> Result<Engine, SpecError>
    ensures engine { IfOk result (IsEngineOf events.now.events (Formula.Temporal past.now)) }
    ensures settled { IfOk result (λ _. (fault : SpecFault) →
        IsTableFault (Formula.Temporal past.now) (length events.now.events) fault → ⊥) }
    ensures err { IfErr result (λ e. IfBad e (IsTableFault (Formula.Temporal past.now) (length events.now.events))) }
{
    minimal(past.compile(alloc, events)?)
}

/// The minimal table of a table.
fn minimal(table: Table) -> Result<Engine, SpecError>
    ensures minimised { IfOk result (IsMinimised table) }
    ensures err { IfErr result (λ e. e ≡ SpecError.NoMemory) }
{
    Ok(Engine::States(table.minimise()?))
}

/// The charts of a grammar, whose letters are events of the table.
fn parses(alloc: Global, grammar: &Grammar, events: &EventTable) -> Result<Engine, SpecError>
    requires { AreBelow grammar.now.productions (length events.now.events) }
    ensures engine { IfOk result (IsEngineOf events.now.events (Formula.Grammatical grammar.now)) }
    ensures err { IfErr result (λ e. e ≡ SpecError.NoMemory) }
{
    Ok(Engine::Parses(Charts::of(alloc, grammar, events)?))
}

/// The charts of the words that end in one of a grammar, whose letters are events of the table.
fn parses_suffixes(
    alloc: Global,
    grammar: &Grammar,
    events: &EventTable,
) -> Result<Engine, SpecError>
    requires below { AreBelow grammar.now.productions (length events.now.events) }
    requires bounded { IsWithin 31 grammar.now }
    ensures engine { IfOk result (IsEngineOf events.now.events (Formula.GrammaticalSuffix grammar.now)) }
    ensures err { IfErr result (λ e. e ≡ SpecError.NoMemory) }
{
    let changed = suffix_grammar(alloc, grammar.reduce()?, events.letters())?;
    Ok(Engine::Parses(Charts::of(alloc, &changed, events)?))
}
