//! The tree of a specification, and what is wrong with a frame.
ghost use Rattle.std.specs.Prelude.{ℕ, ◌≡◌, ◌<◌, ◌≤◌, ◌^◌, [], ◌∷◌, bit_or, length, map, option_map, IfOk, IfErr, None, Some};
ghost use Rattle.std.specs.List.{list_any};
ghost use Rattle.jm_reading.specs.Faults.{fault_of, Refuses, Checks, Makes};
ghost use Rattle.jm_spec.specs.Faults.{modifier_fault, advice_fault, property_fault, name_of, logic_named, logic_of, logic_fault, unless_known, with_params, with_param, with_names, with_bit, number_said, with_events, with_advice, with_mention, table_of, frame_fault, most_properties};
ghost use Rattle.jm_spec.specs.Trees.{is_full_binding, suffix_of, facts_of, IsFewProperties, TellsProperty, TellsProperties, IsTreeOf};

use crate::events::{Advice, Mention};
use crate::frame::Frame;
use crate::head::Modifier;
use crate::property::{HandlerText, Property};
use jm_events::EventTable;
use jm_model::{Counted, SpecError, SpecFault};
use jm_text::{Token, name};
use std::alloc::Global;

/// The logics of formulas.
#[derive(Clone, Copy, Debug, PartialEq, Eq)]
pub enum Logic {
    /// State machines.
    Fsm,
    /// Regular expressions.
    Ere,
    /// Grammars.
    Cfg,
    /// Formulas over the past.
    Ptltl,
}

/// A property: its logic and the line of the word that names it, the range of its formula, and its handlers. Ranges are
/// half-open, of numbers of tokens.
#[derive(Drop)]
pub struct PropertyTree {
    pub logic: Logic,
    pub logic_line: u32,
    pub first: u32,
    pub last: u32,
    pub handlers: Vec<HandlerText>,
}

/// The frame of a specification. `suffix` is the line of the first such modifier.
#[derive(Drop)]
pub struct SpecTree {
    pub name: Token,
    pub full_binding: bool,
    pub suffix: Option<u32>,
    pub table: EventTable,
    pub properties: Vec<PropertyTree>,
}

const MAX_PROPERTIES: usize = 16;

/// The tree of a frame, or what is wrong with it. Each of these steps is done for the whole file before the next: the
/// modifiers, the advice of the events, the number of properties, the logics, the parameters, the events.
#[tactic(auto, unfolding(crate::specs::Faults::frame_fault))]
pub fn tree_of(alloc: Global, bytes: &[u8], frame: Frame) -> Result<SpecTree, SpecError>
    ensures ok { IfOk result (IsTreeOf bytes.now frame) }
    ensures bounded { IfOk result IsFewProperties }
    ensures checked { Checks result (frame_fault bytes.now frame) }
{
    let Frame {
        modifiers,
        name,
        params,
        events,
        properties,
    } = frame;
    check_modifiers(modifiers.as_slice())?;
    check_advice(events.as_slice())?;
    check_property_count(properties.as_slice())?;
    let properties = known_properties(alloc, bytes, properties.as_slice())?;
    let table = table_of(alloc, bytes, params.as_slice(), events.as_slice())?;
    Ok(SpecTree {
        name,
        full_binding: is_full_binding(modifiers.as_slice()),
        suffix: first_suffix(modifiers.as_slice()),
        table,
        properties,
    })
}

fn check_modifiers(modifiers: &[Modifier]) -> Result<(), SpecError>
    ensures { Checks result (modifier_fault modifiers.now) }
{
    for modifier in modifiers {
        if let Modifier::Unsupported(line) = *modifier {
            return Err(SpecFault::UnsupportedModifier { line }.into());
        }
    }
    Ok(())
}

/// Whether `full-binding` is among the modifiers.
fn is_full_binding(modifiers: &[Modifier]) -> bool
    ensures { result ≡ list_any is_full_binding modifiers.now }
{
    modifiers
        .iter()
        .any(|modifier| means_full_binding(*modifier))
}

fn means_full_binding(modifier: Modifier) -> bool
    ensures { result ≡ is_full_binding modifier }
{
    match modifier {
        Modifier::FullBinding => true,
        _ => false,
    }
}

/// The line of the first `suffix`.
fn first_suffix(modifiers: &[Modifier]) -> Option<u32>
    ensures { result ≡ suffix_of modifiers.now }
{
    for modifier in modifiers {
        if let Modifier::Suffix(line) = *modifier {
            return Some(line);
        }
    }
    None
}

fn check_advice(events: &[Mention]) -> Result<(), SpecError>
    ensures { Checks result (advice_fault events.now) }
{
    for event in events {
        if let Advice::Other(line) = event.advice {
            return Err(SpecFault::UnsupportedAdvice { line }.into());
        }
    }
    Ok(())
}

/// 1 to 16 properties.
fn check_property_count(properties: &[Property]) -> Result<(), SpecError>
    ensures checked { Checks result (property_fault properties.now) }
    ensures bounded { IfOk result (λ _. (0 < length properties.now) × (length properties.now ≤ most_properties)) }
{
    if properties.is_empty() {
        return Err(SpecFault::NoProperty.into());
    }
    if properties.len() > MAX_PROPERTIES {
        let what = Counted::Properties;
        return Err(SpecFault::TooMany { what }.into());
    }
    Ok(())
}

/// The properties with their logics, or the first one whose logic is none of the four.
fn known_properties(
    alloc: Global,
    bytes: &[u8],
    properties: &[Property],
) -> Result<Vec<PropertyTree>, SpecError>
    ensures ok { IfOk result (λ trees. TellsProperties bytes.now properties.now (map facts_of trees.items)) }
    ensures count { IfOk result (λ trees. length trees.items ≡ length properties.now) }
    ensures checked { Checks result (logic_fault bytes.now properties.now) }
{
    let mut trees = Vec::new(alloc);
    for property in properties {
        trees.push(known_property(alloc, bytes, property)?)?;
    }
    Ok(trees)
}

/// A property with its logic.
fn known_property(
    alloc: Global,
    bytes: &[u8],
    property: &Property,
) -> Result<PropertyTree, SpecError>
    ensures ok { IfOk result (λ tree. TellsProperty bytes.now property.now (facts_of tree)) }
    ensures checked { Checks result (unless_known (logic_of bytes.now property.now.logic)
        (SpecFault.UnsupportedLogic property.now.logic.line)) }
{
    let logic = known_logic(bytes, property.logic)?;
    let handlers = Vec::from_slice(alloc, property.handlers.as_slice())?;
    Ok(PropertyTree {
        logic,
        logic_line: property.logic.line,
        first: property.first,
        last: property.last,
        handlers,
    })
}

/// The logic of a word.
fn known_logic(bytes: &[u8], word: Token) -> Result<Logic, SpecError>
    ensures ok { IfOk result (λ logic. logic_of bytes.now word ≡ Some logic) }
    ensures err { IfErr result (λ e. (e ≡ SpecError.Bad (SpecFault.UnsupportedLogic word.line))
        × (logic_of bytes.now word ≡ None)) }
{
    if let Some(name) = name_of(bytes, word) {
        if let Some(logic) = logic_named(name) {
            return Ok(logic);
        }
    }
    let line = word.line;
    Err(SpecFault::UnsupportedLogic { line }.into())
}

fn logic_named(name: &str) -> Option<Logic>
    ensures { result ≡ logic_named name.now }
{
    if name == "fsm" {
        Some(Logic::Fsm)
    } else if name == "ere" {
        Some(Logic::Ere)
    } else if name == "cfg" {
        Some(Logic::Cfg)
    } else if name == "ptltl" {
        Some(Logic::Ptltl)
    } else {
        None
    }
}

/// The name that a token says, if it is a name.
#[tactic(auto, unfolding(crate::specs::Faults::name_of))]
fn name_of<'a>(bytes: &'a [u8], token: Token) -> Option<&'a str>
    ensures { option_map (λ s. s.now) result ≡ name_of bytes.now token }
{
    if token.start <= token.end && token.end as usize <= bytes.len() {
        name(bytes, token)
    } else {
        None
    }
}

/// The table of the parameters and the events.
fn table_of(
    alloc: Global,
    bytes: &[u8],
    params: &[Token],
    events: &[Mention],
) -> Result<EventTable, SpecError>
    ensures ok { IfOk result (λ table. table_of bytes.now params.now events.now ≡ Ok table) }
    ensures err { IfErr result (Refuses (fault_of (table_of bytes.now params.now events.now))) }
{
    let mut table = EventTable::new(alloc);
    add_params(&mut table, bytes, params)?;
    add_events(&mut table, bytes, events)?;
    Ok(table)
}

fn add_params(table: &mut EventTable, bytes: &[u8], params: &[Token]) -> Result<(), SpecError>
    ensures { Makes result table.new (with_params bytes.now table.old params.now) }
{
    for param in params {
        add_param(table, bytes, *param)?;
    }
    Ok(())
}

fn add_param(table: &mut EventTable, bytes: &[u8], param: Token) -> Result<(), SpecError>
    ensures { Makes result table.new (with_param table.old (name_of bytes.now param) param.line) }
{
    if let Some(name) = name_of(bytes, param) {
        table.add_param(name, param.line)?;
    }
    Ok(())
}

fn add_events(table: &mut EventTable, bytes: &[u8], events: &[Mention]) -> Result<(), SpecError>
    ensures { Makes result table.new (with_events bytes.now table.old events.now) }
{
    for event in events {
        add_event(table, bytes, event)?;
    }
    Ok(())
}

fn add_event(table: &mut EventTable, bytes: &[u8], event: &Mention) -> Result<(), SpecError>
    ensures { Makes result table.new (with_advice bytes.now table.old event.now event.now.advice) }
{
    if let Advice::Known(names) = &event.advice {
        let mask = mask_of(table, bytes, names.as_slice());
        if let Some(name) = name_of(bytes, event.name) {
            return add_mention(table, name, mask, event.creation, event.name.line);
        }
    }
    Ok(())
}

fn add_mention(
    table: &mut EventTable,
    name: &str,
    mask: u8,
    creation: bool,
    line: u32,
) -> Result<(), SpecError>
    requires { mask < 2 ^ length table.old.parameters }
    ensures { Makes result table.new (with_mention table.old (Some name.now) mask creation line) }
{
    table.add_event(name, mask, creation, line)?;
    Ok(())
}

/// The parameters among the names.
fn mask_of(table: &EventTable, bytes: &[u8], names: &[Token]) -> u8
    ensures value { result ≡ with_names bytes.now table.now 0 names.now }
    ensures fits { result < 2 ^ length table.now.parameters }
{
    let mut mask = 0;
    for name in names {
        mask = with_name(table, bytes, mask, *name);
    }
    mask
}

fn with_name(table: &EventTable, bytes: &[u8], mask: u8, name: Token) -> u8
    requires { mask < 2 ^ length table.now.parameters }
    ensures value { result ≡ with_bit mask (number_said table.now (name_of bytes.now name)) }
    ensures fits { result < 2 ^ length table.now.parameters }
{
    if let Some(name) = name_of(bytes, name) {
        if let Some(p) = table.param(name) {
            return with_bit(mask, p, table.params());
        }
    }
    mask
}

/// The set with one parameter more, below the given bound.
fn with_bit(mask: u8, p: u8, params: u8) -> u8
    requires bounded { params ≤ 8 }
    requires known { p < params }
    requires fits { mask < 2 ^ params }
    ensures value { result ≡ bit_or mask (2 ^ p) }
    ensures fits { result < 2 ^ params }
{
    mask | 1 << p
}
