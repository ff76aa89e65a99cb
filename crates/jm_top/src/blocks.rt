//! The texts of `check` and `coenable`: a block for each specification.
ghost use Rattle.std.specs.Prelude.{◌≡◌, ◌++◌, ◌<◌, false, ℕ, All, length, map, slice_get, IfOk, IfSome};
ghost use Rattle.std.specs.List.{flat_map};
ghost use Rattle.jm_semantics.specs.Families.{IsFamily};
ghost use Rattle.jm_top.specs.Texts.{declared_text, IsTextOfFamily, IsTextOfFamilies};
ghost use Rattle.jm_machine.specs.Meanings.{has_grammar, rules_meaning};
ghost use Rattle.jm_inputs.specs.Reading.{named_entry, listing, listed, specification_of, FitsEntry};

use jm_events::EventTable;
use jm_inputs::CompiledSpec;
use jm_machine::Rules;
use jm_model::{Letter, NoMemory};
use jm_print::{render_check, render_coenable};
use jm_script::Catalog;
use std::alloc::Global;

/// What each specification declares.
pub(crate) fn declared(
    alloc: Global,
    catalog: &Catalog,
    specs: &[CompiledSpec],
) -> Result<Vec<u8>, NoMemory>
    requires { length catalog.now ≡ length specs.now }
    ensures { IfOk result (λ text. text.items
        ≡ flat_map declared_text (map specification_of (listed catalog.now specs.now))) }
{
    let mut text = Vec::new(alloc);
    for spec in 0..catalog.len() {
        let number = spec as usize;
        let block = declared_by(
            alloc,
            catalog.name(spec),
            catalog.table(spec),
            &specs[number],
        )?;
        text = joined(text, block)?;
    }
    Ok(text)
}

/// What a specification declares.
fn declared_by(
    alloc: Global,
    name: &str,
    table: &EventTable,
    compiled: &CompiledSpec,
) -> Result<Vec<u8>, NoMemory>
    ensures { IfOk result (λ text. text.items
        ≡ declared_text (specification_of (listing (named_entry name.now table.now) compiled.now))) }
{
    let header = &compiled.header;
    render_check(
        alloc,
        name,
        header.logics.as_slice(),
        header.full_binding,
        header.suffix,
        table,
        compiled.rules.handlers(),
    )
}

/// The coenable families of each specification. None has a grammar.
pub(crate) fn families(
    alloc: Global,
    catalog: &Catalog,
    specs: &[CompiledSpec],
) -> Result<Vec<u8>, NoMemory>
    requires many { length catalog.now ≡ length specs.now }
    requires whole { All FitsEntry (listed catalog.now specs.now) }
    requires tables { All (λ l. has_grammar l.rules.definition.properties ≡ false) (listed catalog.now specs.now) }
    ensures { IfOk result (λ text. IsTextOfFamilies (map specification_of (listed catalog.now specs.now)) text.items) }
{
    let mut text = Vec::new(alloc);
    for spec in 0..catalog.len() {
        let number = spec as usize;
        let block = families_text(
            alloc,
            catalog.name(spec),
            catalog.table(spec),
            &specs[number],
        )?;
        text = joined(text, block)?;
    }
    Ok(text)
}

/// The coenable families of a specification, as a text.
fn families_text(
    alloc: Global,
    name: &str,
    table: &EventTable,
    compiled: &CompiledSpec,
) -> Result<Vec<u8>, NoMemory>
    requires whole { FitsEntry (listing (named_entry name.now table.now) compiled.now) }
    requires table { has_grammar compiled.now.rules.definition.properties ≡ false }
    ensures { IfOk result (λ text. IsTextOfFamily
        (specification_of (listing (named_entry name.now table.now) compiled.now)) text.items) }
{
    let families = families_of(alloc, table, &compiled.rules)?;
    render_coenable(alloc, name, table, families.as_slice())
}

/// The coenable family of each letter of these events, by rules that have families.
fn families_of(alloc: Global, table: &EventTable, rules: &Rules) -> Result<Vec<Vec<u8>>, NoMemory>
    requires letters { length rules.now.definition.masks ≡ length table.now.events }
    requires table { has_grammar rules.now.definition.properties ≡ false }
    ensures many { IfOk result (λ families. length families.items ≡ length table.now.events) }
    ensures each { IfOk result (λ families. (letter : ℕ)
        → IfSome (slice_get (map (λ f. f.items) families.items) letter)
        (IsFamily (rules_meaning rules.now.definition) letter)) }
{
    let mut families = Vec::new(alloc);
    for letter in 0..table.letters() {
        let family = family_of(rules, Letter(letter))?;
        families.push(family)?;
    }
    Ok(families)
}

/// The coenable family of a letter, by rules that have families.
fn family_of(rules: &Rules, letter: Letter) -> Result<Vec<u8>, NoMemory>
    requires letter { letter.0 < length rules.now.definition.masks }
    requires table { has_grammar rules.now.definition.properties ≡ false }
    ensures { IfOk result (λ family. IsFamily (rules_meaning rules.now.definition) letter.0 family.items) }
{
    match rules.family(letter)? {
        Some(family) => Ok(family),
        None => unreachable!(),
    }
}

/// A text with another one after it.
pub(crate) fn joined(text: Vec<u8>, more: Vec<u8>) -> Result<Vec<u8>, NoMemory>
    ensures { IfOk result (λ all. all.items ≡ text.items ++ more.items) }
{
    if text.is_empty() {
        return Ok(more);
    }
    let mut text = text;
    text.extend_from_slice(more.as_slice())?;
    Ok(text)
}
