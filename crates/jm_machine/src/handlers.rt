//! The handlers of properties: their categories, what is wrong with them, and which of them reset their property.
ghost use Rattle.std.specs.Prelude.{ℕ, ◌≡◌, ◌<◌, ◌≤◌, ◌^◌, ◌↔◌, Some, true, [], IsBitSet, IsSomeAnd, length, map, slice_get, slice_range, IfOk, IfErr};
ghost use Rattle.jm_text.specs.Spans.{LieWithin};
ghost use Rattle.jm_reading.specs.Faults.{Checks};
ghost use Rattle.jm_spec.specs.Trees.{facts_of};
ghost use Rattle.jm_events.specs.Names.{number_of};
ghost use Rattle.jm_machine.specs.Handlers.{handler_names, AreCategories, handlers_in, count_fault, duplicate_fault, category_fault, reset_in, reset_fault, binding_fault, duplicates_fault, categories_fault, bindings_fault, handlers_fault, has_language, handles_fail, refuses_suffix, suffix_fault, has_reset};
ghost use Rattle.jm_table.specs.Tables.{most_groups};
ghost use Rattle.jm_goal.specs.Goals.{most_handlers};

use crate::formula::Formula;
use jm_events::Names;
use jm_model::{Counted, SpecError, SpecFault};
use jm_reading::{name_of, range_of};
use jm_spec::{HandlerText, Logic, PropertyTree};
use jm_text::{Token, is_word};
use std::alloc::Global;

const MAX_HANDLERS: usize = 16;

/// What is wrong with the handlers of the properties, which have these formulas. Each of these steps is done for all
/// properties before the next: how many handlers there are, whether two of a property are for one category, whether
/// each category is one of the handler's own property, and, for full bindings alone, whether a handler resets its
/// property.
#[tactic(auto, unfolding(crate::specs::Handlers::handlers_fault))]
pub(crate) fn check_handlers(
    alloc: Global,
    bytes: &[u8],
    tokens: &[Token],
    properties: &[PropertyTree],
    formulas: &[Formula],
    full_binding: bool,
) -> Result<(), SpecError>
    requires tokens { LieWithin bytes.now tokens.now }
    requires count { length formulas.now ≡ length properties.now }
    ensures { Checks result
        (handlers_fault bytes.now full_binding tokens.now (map facts_of properties.now) formulas.now) }
{
    check_count(properties)?;
    check_distinct(alloc, bytes, properties)?;
    check_all_categories(alloc, bytes, properties, formulas)?;
    check_all_bindings(bytes, tokens, properties, full_binding)
}

/// At most 16 handlers of all properties.
fn check_count(properties: &[PropertyTree]) -> Result<(), SpecError>
    ensures checked { Checks result (count_fault (map facts_of properties.now)) }
    ensures bounded { IfOk result (λ _. handlers_in (map facts_of properties.now) ≤ most_handlers) }
{
    let mut count = 0;
    for property in properties {
        let here = property.handlers.len();
        if here > MAX_HANDLERS - count {
            let what = Counted::Handlers;
            return Err(SpecFault::TooMany { what }.into());
        }
        count += here;
    }
    Ok(())
}

/// The first handler of a property for a category that an earlier handler of the same property is for.
fn check_distinct(alloc: Global, bytes: &[u8], properties: &[PropertyTree]) -> Result<(), SpecError>
    requires { handlers_in (map facts_of properties.now) ≤ most_handlers }
    ensures { Checks result (duplicates_fault bytes.now (map facts_of properties.now)) }
{
    for property in properties {
        distinct(alloc, bytes, property.handlers.as_slice())?;
    }
    Ok(())
}

/// The first handler for no category of its own property, where the properties have these formulas.
fn check_all_categories(
    alloc: Global,
    bytes: &[u8],
    properties: &[PropertyTree],
    formulas: &[Formula],
) -> Result<(), SpecError>
    requires { length formulas.now ≡ length properties.now }
    ensures { Checks result (categories_fault bytes.now (map facts_of properties.now) formulas.now) }
{
    for number in 0..properties.len() {
        let categories = formulas[number].categories(alloc)?;
        check_categories(bytes, &categories, properties[number].handlers.as_slice())?;
    }
    Ok(())
}

/// Where the specification is for full bindings alone, the first word `__RESET` of all blocks.
fn check_all_bindings(
    bytes: &[u8],
    tokens: &[Token],
    properties: &[PropertyTree],
    full_binding: bool,
) -> Result<(), SpecError>
    requires { LieWithin bytes.now tokens.now }
    ensures { Checks result (bindings_fault bytes.now full_binding tokens.now (map facts_of properties.now)) }
{
    for property in properties {
        check_bindings(bytes, tokens, property.handlers.as_slice(), full_binding)?;
    }
    Ok(())
}

/// Where the modifier `suffix` stands, on this line: no property is without a language, and no handler is for `fail`.
pub(crate) fn check_suffix(
    bytes: &[u8],
    properties: &[PropertyTree],
    suffix: Option<u32>,
) -> Result<(), SpecError>
    ensures { Checks result (suffix_fault bytes.now suffix (map facts_of properties.now)) }
{
    match suffix {
        Some(line) => check_all_take_suffix(bytes, properties, line),
        None => Ok(()),
    }
}

/// No property refuses the modifier, which stands on this line.
fn check_all_take_suffix(
    bytes: &[u8],
    properties: &[PropertyTree],
    line: u32,
) -> Result<(), SpecError>
    ensures { Checks result (suffix_fault bytes.now (Some line) (map facts_of properties.now)) }
{
    for property in properties {
        if refuses_suffix(bytes, property) {
            return Err(SpecFault::UnsupportedSuffix { line }.into());
        }
    }
    Ok(())
}

/// Whether the property has no language, or a handler for `fail`.
fn refuses_suffix(bytes: &[u8], property: &PropertyTree) -> bool
    ensures { result ≡ refuses_suffix bytes.now (facts_of property.now) }
{
    !has_language(property.logic) || handles_fail(bytes, property.handlers.as_slice())
}

/// Whether the logic says a language.
fn has_language(logic: Logic) -> bool
    ensures { result ≡ has_language logic }
{
    match logic {
        Logic::Ere | Logic::Cfg => true,
        Logic::Fsm | Logic::Ptltl => false,
    }
}

/// Whether a handler is for `fail`.
fn handles_fail(bytes: &[u8], handlers: &[HandlerText]) -> bool
    ensures { result ≡ handles_fail bytes.now handlers.now }
{
    handlers
        .iter()
        .any(|handler| name_of(bytes, handler.category) == "fail")
}

/// The names of the categories, or the first handler for one that an earlier handler is for.
pub(crate) fn distinct(
    alloc: Global,
    bytes: &[u8],
    handlers: &[HandlerText],
) -> Result<Names, SpecError>
    requires { length handlers.now ≤ most_handlers }
    ensures names { IfOk result (λ names. names ≡ handler_names bytes.now handlers.now) }
    ensures checked { Checks result (duplicate_fault bytes.now [] handlers.now) }
{
    let mut names = Names::new(alloc);
    for handler in handlers {
        let name = name_of(bytes, handler.category);
        if names.find(name).is_some() {
            let line = handler.category.line;
            return Err(SpecFault::DuplicateHandler { line }.into());
        }
        names.add(name)?;
    }
    Ok(names)
}

/// The first handler for no category of the property.
fn check_categories(
    bytes: &[u8],
    categories: &Names,
    handlers: &[HandlerText],
) -> Result<(), SpecError>
    ensures { Checks result (category_fault bytes.now categories.now handlers.now) }
{
    for handler in handlers {
        if categories.find(name_of(bytes, handler.category)).is_none() {
            let line = handler.category.line;
            return Err(SpecFault::UnknownCategory { line }.into());
        }
    }
    Ok(())
}

/// Where the specification is for full bindings alone, the first word `__RESET` of these blocks.
fn check_bindings(
    bytes: &[u8],
    tokens: &[Token],
    handlers: &[HandlerText],
    full_binding: bool,
) -> Result<(), SpecError>
    requires { LieWithin bytes.now tokens.now }
    ensures { Checks result (binding_fault bytes.now full_binding tokens.now handlers.now) }
{
    if full_binding {
        check_resets(bytes, tokens, handlers)
    } else {
        Ok(())
    }
}

/// The first word `__RESET` of these blocks.
fn check_resets(bytes: &[u8], tokens: &[Token], handlers: &[HandlerText]) -> Result<(), SpecError>
    requires { LieWithin bytes.now tokens.now }
    ensures { Checks result (reset_fault bytes.now tokens.now handlers.now) }
{
    for handler in handlers {
        check_block_resets(bytes, range_of(tokens, handler.first, handler.last))?;
    }
    Ok(())
}

/// The first word `__RESET` of a block.
fn check_block_resets(bytes: &[u8], block: &[Token]) -> Result<(), SpecError>
    requires { LieWithin bytes.now block.now }
    ensures { Checks result (reset_in bytes.now block.now) }
{
    for token in block {
        if is_word(bytes, *token, b"__RESET") {
            let line = token.line;
            return Err(SpecFault::ResetWithFullBinding { line }.into());
        }
    }
    Ok(())
}

/// The handlers whose block has the word `__RESET`: bit k stands for handler k.
pub(crate) fn resets_of(bytes: &[u8], tokens: &[Token], handlers: &[HandlerText]) -> u16
    requires tokens { LieWithin bytes.now tokens.now }
    requires bounded { length handlers.now ≤ most_handlers }
    ensures bits { (k : ℕ) → IsBitSet result k ↔ IsSomeAnd (slice_get handlers.now k)
        (λ h. has_reset bytes.now (slice_range tokens.now h.first h.last) ≡ true) }
    ensures below { result < 2 ^ length handlers.now }
{
    let mut resets = 0;
    for place in 0..handlers.len() {
        let handler = &handlers[place];
        if has_reset(bytes, range_of(tokens, handler.first, handler.last)) {
            resets |= 1 << place;
        }
    }
    resets
}

/// Whether a block has the word `__RESET`.
fn has_reset(bytes: &[u8], block: &[Token]) -> bool
    requires { LieWithin bytes.now block.now }
    ensures { result ≡ has_reset bytes.now block.now }
{
    for token in block {
        if is_word(bytes, *token, b"__RESET") {
            return true;
        }
    }
    false
}

/// The number of each handled category, which is there.
pub(crate) fn groups_of(
    alloc: Global,
    categories: &Names,
    handlers: &Names,
) -> Result<Vec<u16>, SpecError>
    requires bounded { length categories.now ≤ most_groups }
    requires known { AreCategories categories.now handlers.now }
    ensures groups { IfOk result (λ groups. map Some groups.items ≡ map (number_of categories.now) handlers.now) }
    ensures err { IfErr result (λ e. e ≡ SpecError.NoMemory) }
{
    let mut groups = Vec::new(alloc);
    for handler in 0..handlers.len() {
        let Some(category) = categories.find(handlers.name(handler)) else {
            unreachable!()
        };
        groups.push(category as u16)?;
    }
    Ok(groups)
}
