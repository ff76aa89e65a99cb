//! Whole commands under a gate.
use crate::counting::CountingGate;
use crate::meeting::MeetingGate;
use jm_port::{SureFolder, SureSink};
use jm_runner::Gate;
use jm_top::jmop;
use std::alloc::{AllocError, Global};
use std::sync::Wait;
use std::thread::Threads;
use testkit::{Case, text_of};
use testkit_files::files;

/// The command of the case's words, two of whose scripts meet before their first lines.
pub(crate) fn met<R: Threads + Wait + Sync>(
    rt: &R,
    alloc: Global,
    case: &Case,
) -> Result<String, AllocError> {
    let gate = MeetingGate::new();
    let answer = done(rt, alloc, case, &gate)?;
    format!(in alloc; "{} missed\n{answer}", gate.missed())
}

/// The command of the case's words, under a gate that counts.
pub(crate) fn counted<R: Threads + Wait + Sync>(
    rt: &R,
    alloc: Global,
    case: &Case,
) -> Result<String, AllocError> {
    let gate = CountingGate::new();
    let answer = done(rt, alloc, case, &gate)?;
    format!(in alloc; "{}\n{answer}", gate.shown(alloc)?)
}

/// The status, and the lines that are written. They are sorted, since workers may come to their steps in any order.
fn done<R: Threads + Wait + Sync, G: Gate>(
    rt: &R,
    alloc: Global,
    case: &Case,
    gate: &G,
) -> Result<String, AllocError> {
    let mut words = Vec::new(alloc);
    for word in case.first.split_whitespace() {
        words.push(String::from_str(alloc, word)?)?;
    }
    let folder = SureFolder::new(files(alloc, case.text.as_slice())?);
    let mut out = SureSink::new(alloc);
    let status = ended(rt, alloc, words.as_slice(), folder, &mut out, gate);
    let mut lines = Vec::new(alloc);
    for line in text_of(out.bytes()).lines() {
        lines.push(line)?;
    }
    lines.sort()?;
    let mut answer = String::from_str(alloc, status)?;
    for line in lines {
        answer.push('\n')?;
        answer.push_str(line)?;
    }
    Ok(answer)
}

/// The call alone, so that its long contract ends here.
fn ended<R: Threads + Wait + Sync, G: Gate>(
    rt: &R,
    alloc: Global,
    words: &[String],
    mut folder: SureFolder,
    out: &mut SureSink,
    gate: &G,
) -> &'static str {
    let mut err = SureSink::new(alloc);
    let status = jmop(rt, alloc, words, &mut folder, out, &mut err, gate);
    if status.code() == 0 {
        "done"
    } else {
        "refused"
    }
}
