//! Reading a specification: from bytes to rules that run.
ghost use Rattle.std.specs.Prelude.{◌≡◌, ◌≤◌, ◌++◌, List, length, map, is_some, IfOk, IfErr, OnOk};
ghost use Rattle.jm_text.specs.Spans.{LieWithin};
ghost use Rattle.jm_model.specs.declared.fault.SpecFault.{SpecFault};
ghost use Rattle.jm_spec.specs.declared.property.HandlerText.{HandlerText};
ghost use Rattle.jm_spec.specs.Trees.{facts_of, properties_of};
ghost use Rattle.jm_inputs.specs.Specifications.{IsSpecFault, BlocksSay, logics_of, grammar_line_of, all_handlers, most_bytes};
ghost use Rattle.jm_inputs.specs.Reading.{IsRead};

use jm_events::EventTable;
use jm_handler::{Handler, read_handler};
use jm_machine::Rules;
use jm_model::{NoMemory, SpecError};
use jm_reading::{name_of, range_of};
use jm_spec::{Logic, PropertyTree, SpecTree, read_spec};
use jm_text::{Token, tokens};
use std::alloc::Global;

/// What is kept of a specification beside its rules and what its catalog has: the logics of its properties, the line of
/// the first word that names a grammar, whether it is for full bindings alone, whether `suffix` stands, and what its
/// handlers print.
#[derive(Drop)]
pub struct SpecHeader {
    pub logics: Vec<Logic>,
    pub grammar_line: Option<u32>,
    pub full_binding: bool,
    pub suffix: bool,
    pub texts: Vec<Handler>,
}

/// What is kept of a specification beside what its catalog has.
#[derive(Drop)]
pub struct CompiledSpec {
    pub header: SpecHeader,
    pub rules: Rules,
}

/// A specification that was read: its name, its parameters and events, and what is kept beside them.
#[derive(Drop)]
pub(crate) struct NamedSpec<'a> {
    pub name: &'a str,
    pub table: EventTable,
    pub compiled: CompiledSpec,
}

/// The specification that the bytes say. The fault is that of the first step that has one.
pub(crate) fn read_specification<'a>(
    alloc: Global,
    bytes: &'a [u8],
) -> Result<NamedSpec<'a>, SpecError>
    requires { length bytes.now ≤ most_bytes }
    ensures ok { IfOk result (IsRead bytes.now) }
    ensures err { (fault : SpecFault) → result ≡ Err (SpecError.Bad fault) → IsSpecFault bytes.now fault }
{
    let tokens = tokens(alloc, bytes)?;
    let tree = read_spec(alloc, bytes, tokens.as_slice())?;
    let rules = Rules::compile(alloc, bytes, tokens.as_slice(), &tree)?;
    let header = header_of(alloc, bytes, tokens.as_slice(), &tree)?;
    let name = name_of(bytes, tree.name);
    Ok(put_together(name, tree, rules, header))
}

/// What is kept of a tree beside its rules.
fn header_of(
    alloc: Global,
    bytes: &[u8],
    tokens: &[Token],
    tree: &SpecTree,
) -> Result<SpecHeader, SpecError>
    requires { LieWithin bytes.now tokens.now }
    ensures logics { IfOk result (λ header. header.logics.items ≡ logics_of (properties_of tree.now)) }
    ensures grammar_line { IfOk result (λ header. header.grammar_line ≡ grammar_line_of (properties_of tree.now)) }
    ensures full_binding { IfOk result (λ header. header.full_binding ≡ tree.now.full_binding) }
    ensures suffix { IfOk result (λ header. header.suffix ≡ is_some tree.now.suffix) }
    ensures texts { IfOk result (λ header. BlocksSay bytes.now tokens.now tree.now.table.parameters
        (all_handlers (properties_of tree.now)) header.texts.items) }
    ensures err { IfErr result (λ e. e ≡ SpecError.NoMemory) }
{
    let texts = texts_of(
        alloc,
        bytes,
        tokens,
        &tree.table,
        tree.properties.as_slice(),
    )?;
    let logics = logics_of(alloc, tree.properties.as_slice())?;
    Ok(SpecHeader {
        logics,
        grammar_line: grammar_line(tree.properties.as_slice()),
        full_binding: tree.full_binding,
        suffix: tree.suffix.is_some(),
        texts,
    })
}

/// The logics of the properties.
fn logics_of(alloc: Global, properties: &[PropertyTree]) -> Result<Vec<Logic>, NoMemory>
    ensures { IfOk result (λ logics. logics.items ≡ logics_of (map facts_of properties.now)) }
{
    let mut logics = Vec::new(alloc);
    for property in properties {
        logics.push(property.logic)?;
    }
    Ok(logics)
}

/// The line of the first word that names a grammar.
fn grammar_line(properties: &[PropertyTree]) -> Option<u32>
    ensures { result ≡ grammar_line_of (map facts_of properties.now) }
{
    for property in properties {
        if let Logic::Cfg = property.logic {
            return Some(property.logic_line);
        }
    }
    None
}

/// What the blocks of all handlers say.
fn texts_of(
    alloc: Global,
    bytes: &[u8],
    tokens: &[Token],
    table: &EventTable,
    properties: &[PropertyTree],
) -> Result<Vec<Handler>, SpecError>
    requires { LieWithin bytes.now tokens.now }
    ensures ok { IfOk result (λ texts. BlocksSay bytes.now tokens.now table.now.parameters
        (all_handlers (map facts_of properties.now)) texts.items) }
    ensures err { IfErr result (λ e. e ≡ SpecError.NoMemory) }
{
    let mut texts = Vec::new(alloc);
    for property in properties {
        add_texts(alloc, bytes, tokens, table, property, &mut texts)?;
    }
    Ok(texts)
}

/// Adds what the blocks of the property's handlers say.
fn add_texts(
    alloc: Global,
    bytes: &[u8],
    tokens: &[Token],
    table: &EventTable,
    property: &PropertyTree,
    texts: &mut Vec<Handler>,
) -> Result<(), SpecError>
    requires { LieWithin bytes.now tokens.now }
    ensures ok { OnOk result ((before : List HandlerText)
        → BlocksSay bytes.now tokens.now table.now.parameters before texts.old.items
        → BlocksSay bytes.now tokens.now table.now.parameters (before ++ property.now.handlers.items) texts.new.items) }
    ensures err { IfErr result (λ e. e ≡ SpecError.NoMemory) }
{
    for handler in &property.handlers {
        let block = range_of(tokens, handler.first, handler.last);
        texts.push(read_handler(alloc, bytes, block, table)?)?;
    }
    Ok(())
}

/// Puts together what was read of a specification.
fn put_together<'a>(
    name: &'a str,
    tree: SpecTree,
    rules: Rules,
    header: SpecHeader,
) -> NamedSpec<'a>
    ensures name { result.name.now ≡ name.now }
    ensures table { result.table ≡ tree.table }
    ensures header { result.compiled.header ≡ header }
    ensures rules { result.compiled.rules ≡ rules }
{
    NamedSpec {
        name,
        table: tree.table,
        compiled: CompiledSpec { header, rules },
    }
}
