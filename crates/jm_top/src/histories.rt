//! The texts of histories, and their summaries.
ghost use Rattle.std.specs.Prelude.{◌≡◌, ◌++◌, length, map, All, IfOk};
ghost use Rattle.jm_print.specs.Texts.{IsPrintable, history_text};
ghost use Rattle.jm_print.specs.Told.{texts_of};
ghost use Rattle.jm_print.specs.Summaries.{summary_text};
ghost use Rattle.jm_top.specs.Histories.{lexicon};
ghost use Rattle.jm_inputs.specs.Reading.{named_entry, titled};
ghost use Rattle.jm_top.specs.Printing.{titled_by, ArePrintable, entry_summaries};

use crate::blocks::joined;
use jm_core::Prop;
use jm_events::{EventTable, Names};
use jm_history::History;
use jm_inputs::SpecHeader;
use jm_machine::Rules;
use jm_model::{Monitor, NoMemory};
use jm_print::{render_history, render_summary};
use jm_script::Catalog;
use std::alloc::Global;

/// What is left of a core to be printed: its rules, and its history.
#[derive(Drop)]
pub(crate) struct Ended {
    pub rules: Rules,
    pub history: History,
}

/// What is left of these cores to be printed: all else that they have in memory is let go.
pub(crate) fn ended_of(alloc: Global, props: Vec<Prop<Rules>>) -> Result<Vec<Ended>, NoMemory>
    ensures rules { IfOk result (λ all. map (λ e. e.rules) all.items ≡ map (λ p. p.definition) props.items) }
    ensures histories { IfOk result (λ all. map (λ e. e.history) all.items ≡ map (λ p. p.entries) props.items) }
{
    let mut all = Vec::with_capacity(alloc, props.len())?;
    for prop in props {
        let (rules, history) = prop.into_parts();
        all.push(Ended { rules, history })?;
    }
    Ok(all)
}

/// The printed histories of these cores, each by its header, one after another.
pub(crate) fn histories_text(
    alloc: Global,
    catalog: &Catalog,
    headers: &[SpecHeader],
    ended: &[Ended],
    objects: &Names,
) -> Result<Vec<u8>, NoMemory>
    requires titled { length catalog.now ≡ length headers.now }
    requires many { length headers.now ≡ length ended.now }
    requires printable { ArePrintable
        (map (lexicon objects.now) (titled_by catalog.now headers.now (map (λ e. e.rules) ended.now)))
        (map (λ e. e.history) ended.now) }
    ensures { IfOk result (λ text. text.items ≡ texts_of
        (map (lexicon objects.now) (titled_by catalog.now headers.now (map (λ e. e.rules) ended.now)))
        (map (λ e. e.history) ended.now)) }
{
    let mut text = Vec::new(alloc);
    for spec in 0..catalog.len() {
        let number = spec as usize;
        let name = catalog.name(spec);
        let table = catalog.table(spec);
        let block = history_text(
            alloc,
            name,
            table,
            &headers[number],
            &ended[number],
            objects,
        )?;
        text = joined(text, block)?;
    }
    Ok(text)
}

/// The printed history of what is left of a core.
fn history_text(
    alloc: Global,
    name: &str,
    table: &EventTable,
    header: &SpecHeader,
    ended: &Ended,
    objects: &Names,
) -> Result<Vec<u8>, NoMemory>
    requires { All (IsPrintable (lexicon objects.now (titled (named_entry name.now table.now) header.now
        ended.now.rules.definition))) ended.now.history }
    ensures { IfOk result (λ text. text.items ≡ history_text (lexicon objects.now
        (titled (named_entry name.now table.now) header.now ended.now.rules.definition)) ended.now.history) }
{
    render_history(
        alloc,
        name,
        &ended.history,
        table,
        ended.rules.handlers(),
        header.texts.as_slice(),
        objects,
    )
}

/// The summaries of the histories of these cores, each by its name, one after another.
pub(crate) fn summaries_text<M: Monitor>(
    alloc: Global,
    catalog: &Catalog,
    props: &[Prop<M>],
) -> Result<Vec<u8>, NoMemory>
    requires { length catalog.now ≡ length props.now }
    ensures { IfOk result (λ text. text.items ≡ entry_summaries catalog.now (map (λ p. p.entries) props.now)) }
{
    let mut text = Vec::new(alloc);
    for spec in 0..catalog.len() {
        let number = spec as usize;
        let line = summary(alloc, catalog.name(spec), &props[number])?;
        text = joined(text, line)?;
    }
    Ok(text)
}

/// The summary of the history of a core.
fn summary<M: Monitor>(alloc: Global, name: &str, prop: &Prop<M>) -> Result<Vec<u8>, NoMemory>
    ensures { IfOk result (λ text. text.items ≡ summary_text name.now prop.now.entries) }
{
    render_summary(alloc, name, prop.history())
}
