use crate::script::{part_of, parts_of};
use jm_history::History;
use jm_model::{Monitor, NoMemory};
use jm_sweep::{parts, replay_all, replay_part};
use std::alloc::{AllocError, Global};
use std::thread::Threads;
use testkit::{Case, number_of, put, put_word};
use testkit_rules::rules_of;
use testkit_steps::{entry_shown, or_no_memory};

/// What the case's verb answers.
pub(crate) fn answer<R: Threads + Sync>(
    rt: &R,
    alloc: Global,
    case: &Case,
) -> Result<String, AllocError> {
    match case.verb.as_str() {
        "parts" => or_no_memory(alloc, spans(alloc, &case.text)),
        _ => replayed(rt, alloc, case),
    }
}

/// Where the parts of the text begin and end: `BEGIN-END ..`.
fn spans(alloc: Global, text: &[u8]) -> Result<String, NoMemory> {
    let mut out = String::new(alloc);
    if text.len() >= 4_194_304 {
        return Ok(out);
    }
    for span in &parts(alloc, text)? {
        let one = format!(in alloc; "{}-{}", span.0, span.1)?;
        put_word(&mut out, one.as_str())?;
    }
    Ok(out)
}

/// The histories of the parts of a case, over the specification in its text.
fn replayed<R: Threads + Sync>(rt: &R, alloc: Global, case: &Case) -> Result<String, AllocError> {
    let objects = number_of(case.second.as_str());
    match rules_of(alloc, &case.text) {
        Ok(rules) if case.verb.as_str() == "sweep" => {
            or_no_memory(
                alloc,
                swept(rt, alloc, &rules, objects, case.first.as_str()),
            )
        }
        Ok(rules) => or_no_memory(alloc, alone(alloc, &rules, objects, case.first.as_str())),
        Err(fault) => format!(in alloc; "{fault:?}"),
    }
}

/// The histories of the parts of a line, with a ` | ` between two.
fn swept<M: Monitor + Sync, R: Threads + Sync>(
    rt: &R,
    alloc: Global,
    rules: &M,
    objects: u32,
    line: &str,
) -> Result<String, NoMemory>
where
    M::State: Send,
{
    let all = parts_of(alloc, rules, objects, line)?;
    let mut out = String::new(alloc);
    for history in &replay_all(rt, alloc, rules, &all)? {
        let one = history_shown(alloc, history)?;
        if !out.is_empty() {
            out.push_str(" |")?;
        }
        put_word(&mut out, one.as_str())?;
    }
    Ok(out)
}

/// The history of one part.
fn alone<M: Monitor>(
    alloc: Global,
    rules: &M,
    objects: u32,
    line: &str,
) -> Result<String, NoMemory> {
    let part = part_of(alloc, rules, objects, line)?;
    let history = replay_part(alloc, rules, &part)?;
    Ok(history_shown(alloc, &history)?)
}

/// The entries of a history, or `-` where it has none.
fn history_shown(alloc: Global, history: &History) -> Result<String, NoMemory> {
    let mut out = String::new(alloc);
    for entry in &history.to_list(alloc)? {
        let one = entry_shown(alloc, entry)?;
        put(&mut out, ',', one.as_str())?;
    }
    if out.is_empty() {
        out.push('-')?;
    }
    Ok(out)
}
