//! The properties that a tree says: their formulas are read, their handlers checked, and each is compiled.
ghost use Rattle.std.specs.Prelude.{ℕ, ◌≡◌, ◌<◌, ◌≤◌, List, All, None, IfOk, IfErr, length, map, slice_get};
ghost use Rattle.std.specs.Option.{is_some};
ghost use Rattle.jm_model.specs.declared.fault.SpecFault.{SpecFault};
ghost use Rattle.jm_text.specs.Spans.{LieWithin};
ghost use Rattle.jm_table.specs.Explorations.{IfBad};
ghost use Rattle.jm_spec.specs.Trees.{facts_of, properties_of};
ghost use Rattle.jm_machine.specs.Formulas.{IsTableFault};
ghost use Rattle.jm_machine.specs.Handlers.{handlers_fault};
ghost use Rattle.jm_machine.specs.FirstRefusals.{IsFirstRefusal, step_of_fault};
ghost use Rattle.jm_machine.specs.Compiling.{IsFormula, IsRefusedFormula, AreFormulas, IsFirstTableFault, IsSettled};
ghost use Rattle.jm_machine.specs.Refusals.{earlier_of, IsHandled, IsPart, AreParts};

use crate::formula::Formula;
use crate::handlers::{distinct, resets_of};
use crate::handling::Handling;
use crate::property::Property;
use jm_model::{Counted, SpecError, SpecFault};
use jm_reading::range_of;
use jm_spec::{PropertyTree, SpecTree};
use jm_text::Token;
use std::alloc::Global;

/// The formulas of the properties. Of the faults that their readers find, the one of the earliest step is answered, and
/// within a step that of the first property.
pub(crate) fn read_formulas(
    alloc: Global,
    bytes: &[u8],
    tokens: &[Token],
    tree: &SpecTree,
) -> Result<Vec<Formula>, SpecError>
    requires { LieWithin bytes.now tokens.now }
    ensures ok { IfOk result (λ formulas.
        AreFormulas bytes.now tokens.now tree.now.table (is_some tree.now.suffix)
        (properties_of tree.now) formulas.items) }
    ensures err { IfErr result (λ e. IfBad e
        (IsFirstRefusal (IsRefusedFormula bytes.now tokens.now tree.now.table (is_some tree.now.suffix))
        (properties_of tree.now))) }
{
    let mut formulas = Vec::new(alloc);
    let mut first = None;
    for property in tree.properties.as_slice() {
        match read_formula(alloc, bytes, tokens, property, tree) {
            Ok(formula) => formulas.push(formula)?,
            Err(SpecError::NoMemory) => return Err(SpecError::NoMemory),
            Err(SpecError::Bad(fault)) => first = Some(earlier(first, fault)),
        }
    }
    match first {
        None => Ok(formulas),
        Some(fault) => Err(fault.into()),
    }
}

/// The formula of a property.
fn read_formula(
    alloc: Global,
    bytes: &[u8],
    tokens: &[Token],
    property: &PropertyTree,
    tree: &SpecTree,
) -> Result<Formula, SpecError>
    requires { LieWithin bytes.now tokens.now }
    ensures ok { IfOk result
        (IsFormula bytes.now tokens.now tree.now.table (is_some tree.now.suffix) (facts_of property.now)) }
    ensures err { IfErr result (λ e. IfBad e
        (IsRefusedFormula bytes.now tokens.now tree.now.table (is_some tree.now.suffix) (facts_of property.now))) }
{
    let text = range_of(tokens, property.first, property.last);
    let line = line_before(tokens, property.first);
    Formula::read(alloc, bytes, text, line, property.logic, tree)
}

/// The line of the token before a place, or 1 where there is none.
fn line_before(tokens: &[Token], place: u32) -> u32 {
    match range_of(tokens, 0, place).last() {
        Some(token) => token.line,
        None => 1,
    }
}

/// The fault that comes first: the later one only where its step is an earlier one.
fn earlier(first: Option<SpecFault>, later: SpecFault) -> SpecFault
    ensures { result ≡ earlier_of first later }
{
    match first {
        Some(fault) if step_of(fault) <= step_of(later) => fault,
        _ => later,
    }
}

/// The number of the step in which a reader of formulas finds a fault.
fn step_of(fault: SpecFault) -> u8
    ensures { result ≡ step_of_fault fault }
{
    match fault {
        SpecFault::TooMany {
            what: Counted::Nesting,
        } => 0,
        SpecFault::TooMany { .. } => 2,
        SpecFault::Syntax { .. } => 1,
        SpecFault::ReservedName { .. } | SpecFault::NameClash { .. } => 3,
        SpecFault::DuplicateState { .. } | SpecFault::DuplicateTransition { .. } => 4,
        SpecFault::TooManyStates => 5,
        _ => 6,
    }
}

/// The properties of a tree that have these formulas, and handlers without a fault. The fault is that of the first
/// table that has one.
pub(crate) fn compile_formulas(
    alloc: Global,
    bytes: &[u8],
    tokens: &[Token],
    tree: &SpecTree,
    mut formulas: Vec<Formula>,
) -> Result<Vec<Property>, SpecError>
    requires tokens { LieWithin bytes.now tokens.now }
    requires read { AreFormulas bytes.now tokens.now tree.now.table (is_some tree.now.suffix)
        (properties_of tree.now) formulas.items }
    requires handled { handlers_fault bytes.now tree.now.full_binding tokens.now
        (properties_of tree.now) formulas.items ≡ None }
    ensures parts { IfOk result (λ parts. AreParts bytes.now tree.now.full_binding tokens.now tree.now.table
        (properties_of tree.now) formulas.items parts.items) }
    ensures settled { IfOk result (λ _. IsSettled (length tree.now.table.events) formulas.items) }
    ensures err { IfErr result (λ e.
        IfBad e (IsFirstTableFault (length tree.now.table.events) formulas.items)) }
{
    let mut parts = Vec::new(alloc);
    for property in tree.properties.as_slice() {
        let formula = formulas.remove(0);
        parts.push(compile_formula(alloc, bytes, tokens, tree, property, formula)?)?;
    }
    Ok(parts)
}

/// The property that has this formula, and handlers without a fault.
fn compile_formula(
    alloc: Global,
    bytes: &[u8],
    tokens: &[Token],
    tree: &SpecTree,
    property: &PropertyTree,
    formula: Formula,
) -> Result<Property, SpecError>
    requires tokens { LieWithin bytes.now tokens.now }
    requires read { IsFormula bytes.now tokens.now tree.now.table (is_some tree.now.suffix)
        (facts_of property.now) formula }
    requires handled { IsHandled bytes.now tree.now.full_binding tokens.now (facts_of property.now) formula }
    ensures part { IfOk result
        (IsPart bytes.now tree.now.full_binding tokens.now tree.now.table (facts_of property.now) formula) }
    ensures settled { IfOk result (λ _. (fault : SpecFault) →
        IsTableFault formula (length tree.now.table.events) fault → ⊥) }
    ensures err { IfErr result (λ e. IfBad e (IsTableFault formula (length tree.now.table.events))) }
{
    let categories = formula.categories(alloc)?;
    let texts = property.handlers.as_slice();
    let handlers = distinct(alloc, bytes, texts)?;
    let resets = resets_of(bytes, tokens, texts);
    let engine = formula.compile(alloc, &tree.table)?;
    let handling = Handling {
        categories,
        handlers,
        resets,
    };
    Property::new(alloc, tree, formula, handling, engine)
}
