//! Printed histories.
ghost use Rattle.std.specs.Prelude.{OnOk, All};
ghost use Rattle.test_print.specs.Shops.{IsModest};

use crate::shop::entry_of;
use jm_events::{EventTable, Names};
use jm_handler::{Handler, read_handler};
use jm_history::{History, Node};
use jm_model::{NoMemory, SpecError};
use jm_print::{render_history, render_summary};
use jm_text::tokens;
use std::alloc::{AllocError, Global};
use testkit::{Case, text_of};
use testkit_tokens::table_of;

/// The history of a text's lines, each a line's number and a kind of entry, and its summary. After the `/` stand the
/// blocks of the handlers, with `|` between.
pub(crate) fn print(alloc: Global, case: &Case) -> Result<String, SpecError> {
    let text = text_of(case.text.as_slice());
    let mut history = History::new();
    for line in text.lines() {
        add(alloc, &mut history, line)?;
    }
    let name = case.first.as_str();
    let table = table_of(alloc, "c i p2 p3 p4 p5 p6 p7 create=3 tick=0")?;
    let handlers = handlers_of(alloc, case.second.as_str(), &table)?;
    let page = page(alloc, name, &history, &table, handlers.as_slice())?;
    let summary = render_summary(alloc, name, &history)?;
    Ok(joined(alloc, &page, &summary)?)
}

fn add(alloc: Global, history: &mut History, line: &str) -> Result<(), NoMemory>
    requires { All IsModest history.old }
    ensures { OnOk result (All IsModest history.new) }
{
    let (number, kind) = line.split_once(' ').unwrap_or((line, ""));
    let (step, outcome) = entry_of(alloc, kind)?;
    let node = Node::new(alloc, 0, number.parse::<u32>().unwrap_or(0), step)?;
    history.push(node, outcome);
    Ok(())
}

/// The text of a history, with the names of a shop.
fn page(
    alloc: Global,
    name: &str,
    history: &History,
    table: &EventTable,
    handlers: &[Handler],
) -> Result<Vec<u8>, NoMemory>
    requires { All IsModest history.now }
{
    let categories = names(alloc, "match fail")?;
    let objects = names(alloc, "c1 i-1")?;
    rendered(alloc, name, history, table, &categories, handlers, &objects)
}

/// What the blocks say.
fn handlers_of(alloc: Global, blocks: &str, table: &EventTable) -> Result<Vec<Handler>, SpecError> {
    let mut handlers = Vec::new(alloc);
    for block in blocks.split('|') {
        if block.len() < 1_000_000 {
            let tokens = tokens(alloc, block.as_bytes())?;
            handlers.push(read_handler(alloc, block.as_bytes(), tokens.as_slice(), table)?)?;
        }
    }
    Ok(handlers)
}

pub(crate) fn names(alloc: Global, words: &str) -> Result<Names, NoMemory> {
    let mut names = Names::new(alloc);
    for word in words.split_whitespace() {
        if names.len() < 100 {
            names.add(word)?;
        }
    }
    Ok(names)
}

/// The text, if there are enough names.
fn rendered(
    alloc: Global,
    name: &str,
    history: &History,
    table: &EventTable,
    categories: &Names,
    handlers: &[Handler],
    objects: &Names,
) -> Result<Vec<u8>, NoMemory>
    requires { All IsModest history.now }
{
    if table.params() != 8 || table.letters() != 2 || categories.len() != 2 || objects.len() != 2 {
        return Err(NoMemory);
    }
    render_history(alloc, name, history, table, categories, handlers, objects)
}

/// Two texts without the line feed at the end of the second.
fn joined(alloc: Global, page: &[u8], summary: &[u8]) -> Result<String, AllocError> {
    let page = text_of(page);
    let mut out = String::from_str(alloc, page)?;
    let summary = text_of(summary);
    let line = summary.trim_end();
    out.push_str(line)?;
    Ok(out)
}
