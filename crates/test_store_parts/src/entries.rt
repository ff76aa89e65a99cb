//! Copies of outcomes and entries, and histories.
use jm_history::{History, Node, Piece};
use jm_model::{Entry, NoMemory, Outcome, Step};
use std::alloc::{AllocError, Global};
use testkit::{Case, number_of, put_line, text_of};
use testkit_steps::{entry_shown, outcome_of, outcome_shown, step_of, step_shown};

/// Copies of the outcomes of the text's lines.
pub(crate) fn outcomes(alloc: Global, case: &Case) -> Result<String, NoMemory> {
    let mut out = String::new(alloc);
    for line in text_of(&case.text).lines() {
        let copy = outcome_of(alloc, line)?.copy()?;
        put_line(&mut out, outcome_shown(alloc, &copy)?.as_str())?;
    }
    Ok(out)
}

/// Copies of the entries of the text's lines, each `CALLER LINE STEP OUTCOME`.
pub(crate) fn entries(alloc: Global, case: &Case) -> Result<String, NoMemory> {
    let mut out = String::new(alloc);
    for line in text_of(&case.text).lines() {
        let copy = entry_of(alloc, line)?.copy()?;
        put_line(&mut out, entry_shown(alloc, &copy)?.as_str())?;
    }
    Ok(out)
}

fn entry_of(alloc: Global, line: &str) -> Result<Entry, NoMemory> {
    let (caller, rest) = line.split_once(' ').unwrap_or((line, ""));
    let (line, rest) = rest.split_once(' ').unwrap_or((rest, ""));
    let (step, outcome) = rest.split_once(' ').unwrap_or((rest, ""));
    Ok(Entry {
        caller: number_of(caller),
        line: number_of(line),
        step: step_of(step),
        outcome: outcome_of(alloc, outcome)?,
    })
}

/// What each node tells of the entries of the text's lines, then how many entries their history has, the entries that
/// it lends, and those that it copies. The entries after a line `rows` stand in a row, those before it in links.
pub(crate) fn history(alloc: Global, case: &Case) -> Result<String, NoMemory> {
    let mut history = History::new();
    let mut out = String::new(alloc);
    let mut rows = false;
    for line in text_of(&case.text).lines() {
        if line == "rows" {
            rows = true;
            continue;
        }
        if rows {
            history.make_room(alloc);
        }
        let told = add(alloc, &mut history, entry_of(alloc, line)?)?;
        put_line(&mut out, told.as_str())?;
    }
    let count = format!(in alloc; "{}", history.len())?;
    put_line(&mut out, count.as_str())?;
    for piece in &history.pieces(alloc)? {
        put_piece(alloc, &mut out, piece)?;
    }
    put_copies(alloc, &mut out, &history)?;
    Ok(out)
}

fn put_piece(alloc: Global, out: &mut String, piece: &Piece) -> Result<(), NoMemory> {
    for i in 0..piece.len() {
        let entry = piece.get(i).copy()?;
        put_line(out, entry_shown(alloc, &entry)?.as_str())?;
    }
    Ok(())
}

fn add(alloc: Global, history: &mut History, entry: Entry) -> Result<String, NoMemory> {
    let Entry {
        caller,
        line,
        step,
        outcome,
    } = entry;
    let node = Node::new(alloc, caller, line, step)?;
    let told = node_shown(alloc, &node);
    history.push(node, outcome);
    Ok(told?)
}

fn node_shown(alloc: Global, node: &Node) -> Result<String, AllocError> {
    let step = step_shown(alloc, node.step())?;
    format!(in alloc; "{} {} {step}", node.caller(), node.line())
}

fn put_copies(alloc: Global, out: &mut String, history: &History) -> Result<(), NoMemory> {
    for entry in &history.to_list(alloc)? {
        put_line(out, entry_shown(alloc, entry)?.as_str())?;
    }
    Ok(())
}

/// How many entries a history of so many has. It is dropped on a stack that has no room for a call for each.
pub(crate) fn long(alloc: Global, case: &Case) -> Result<String, NoMemory> {
    let mut history = History::new();
    for line in 0..number_of(case.first.as_str()) {
        let node = Node::new(alloc, 0, line, Step::Pass)?;
        history.push(node, Outcome::Kept(1));
    }
    shown(alloc, history.len())
}

fn shown(alloc: Global, count: u64) -> Result<String, NoMemory> {
    let text: Result<String, AllocError> = format!(in alloc; "{count}");
    Ok(text?)
}
