//! Events over tables of states.
use crate::rig::Rig;
use jm_core::Prop;
use jm_history::History;
use jm_model::NoMemory;
use std::alloc::Global;
use testkit::{Case, byte_of, number_of, put_line, put_word, text_of};
use testkit_monitor::Table;
use testkit_steps::{binding_shown, entry_shown, outcome_shown};

/// The table of words such as `unsafe_iter 0` or `tick 1`.
fn table_of(text: &str) -> Table {
    let (name, rest) = text.split_once(' ').unwrap_or((text, ""));
    if name == "tick" {
        Table::tick(byte_of(rest))
    } else {
        Table::unsafe_iter(number_of(rest))
    }
}

/// What each line is answered: an event's `LETTER OBJECT ..` its outcome, `stored` the stored instances, and `history`
/// the entries.
pub(crate) fn core(alloc: Global, case: &Case) -> Result<String, NoMemory> {
    let mut rig = Rig::new(alloc, table_of(case.first.as_str()))?;
    let mut out = String::new(alloc);
    for line in text_of(&case.text).lines() {
        let answer = match line {
            "stored" => stored(alloc, &rig.prop)?,
            "history" => entries(alloc, rig.prop.history())?,
            event => outcome_shown(alloc, &rig.fire(event)?)?,
        };
        put_line(&mut out, answer.as_str())?;
    }
    Ok(out)
}

fn stored(alloc: Global, prop: &Prop<Table>) -> Result<String, NoMemory> {
    let mut out = String::new(alloc);
    for instance in &prop.stored()? {
        put_word(&mut out, binding_shown(alloc, instance)?.as_str())?;
    }
    Ok(out)
}

fn entries(alloc: Global, history: &History) -> Result<String, NoMemory> {
    let mut out = String::new(alloc);
    for entry in &history.to_list(alloc)? {
        put_line(&mut out, entry_shown(alloc, entry)?.as_str())?;
    }
    Ok(out)
}

/// The entries after a caller's events, of lines `NUMBER LETTER OBJECT ..`.
pub(crate) fn replay(alloc: Global, case: &Case) -> Result<String, NoMemory> {
    let mut rig = Rig::new(alloc, table_of(case.first.as_str()))?;
    rig.replay(number_of(case.second.as_str()), text_of(&case.text))?;
    entries(alloc, &rig.prop.into_history())
}
