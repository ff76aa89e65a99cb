//! Whole commands.
use crate::shown::{put_last_line, put_text};
use jm_inputs::one_reading;
use jm_port::{Folder, LoadFault, MemoryFolder, Sink, SureFolder, SureSink};
use jm_runner::FreeGate;
use jm_top::{Status, fault_text, jmop};
use std::alloc::{AllocError, Global};
use std::sync::Wait;
use std::thread::Threads;
use testkit::{Case, put_line, text_of};
use testkit_files::{calls_of, files, sink_of};

/// How the command of the case's words ends, and what is written to its two sinks. The words after the `/` say what
/// fails: `read-fails CALL..`, or `write STEP CALL..` for a sink that takes STEP bytes at a time. `loads CALL` asks
/// whether the load with this number, of all from 0 on, is the one that comes after the command, of a file `x`.
pub(crate) fn run<R: Threads + Wait + Sync>(
    rt: &R,
    alloc: Global,
    case: &Case,
) -> Result<String, AllocError> {
    let (kind, rest) = case
        .second
        .split_once(' ')
        .unwrap_or((case.second.as_str(), ""));
    match kind {
        "read-fails" => read_fails(rt, alloc, case, rest),
        "loads" => loads(rt, alloc, case, rest),
        "write" => write_fails(rt, alloc, case, rest),
        _ => nothing_fails(rt, alloc, case),
    }
}

fn nothing_fails<R: Threads + Wait + Sync>(
    rt: &R,
    alloc: Global,
    case: &Case,
) -> Result<String, AllocError> {
    let mut folder = SureFolder::new(files(alloc, case.text.as_slice())?);
    let mut out = SureSink::new(alloc);
    let (status, err) = done(rt, alloc, case, &mut folder, &mut out)?;
    shown(alloc, &status, out.bytes(), err.bytes())
}

fn read_fails<R: Threads + Wait + Sync>(
    rt: &R,
    alloc: Global,
    case: &Case,
    calls: &str,
) -> Result<String, AllocError> {
    let fail = calls_of(alloc, calls)?;
    let mut folder = MemoryFolder::new(files(alloc, case.text.as_slice())?, fail);
    let mut out = SureSink::new(alloc);
    let (status, err) = done(rt, alloc, case, &mut folder, &mut out)?;
    shown(alloc, &status, out.bytes(), err.bytes())
}

/// Whether the load after the command is the one that fails, and so has this number; and how the command ends.
fn loads<R: Threads + Wait + Sync>(
    rt: &R,
    alloc: Global,
    case: &Case,
    calls: &str,
) -> Result<String, AllocError> {
    let fail = calls_of(alloc, calls)?;
    let mut folder = MemoryFolder::new(files(alloc, case.text.as_slice())?, fail);
    let mut out = SureSink::new(alloc);
    let (status, err) = done(rt, alloc, case, &mut folder, &mut out)?;
    let next = match folder.load("x", 64) {
        Err(LoadFault::Failed) => "the load behind it has this number",
        _ => "the load behind it has another number",
    };
    let mut answer = format!(in alloc; "{status:?} {}", status.code())?;
    put_last_line(&mut answer, err.bytes())?;
    put_line(&mut answer, next)?;
    Ok(answer)
}

fn write_fails<R: Threads + Wait + Sync>(
    rt: &R,
    alloc: Global,
    case: &Case,
    rest: &str,
) -> Result<String, AllocError> {
    let mut folder = SureFolder::new(files(alloc, case.text.as_slice())?);
    let mut out = sink_of(alloc, rest)?;
    let (status, err) = done(rt, alloc, case, &mut folder, &mut out)?;
    shown(alloc, &status, out.bytes(), err.bytes())
}

/// Does the command of the case's words, and gives its status and what the error sink was given.
fn done<R: Threads + Wait + Sync, F: Folder, S: Sink>(
    rt: &R,
    alloc: Global,
    case: &Case,
    files: &mut F,
    out: &mut S,
) -> Result<(Status, SureSink), AllocError> {
    let words = words_of(alloc, case.first.as_str())?;
    let mut err = SureSink::new(alloc);
    let status = ended(rt, alloc, words.as_slice(), files, out, &mut err);
    Ok((status, err))
}

fn words_of(alloc: Global, line: &str) -> Result<Vec<String>, AllocError> {
    let mut words = Vec::new(alloc);
    for word in line.split_whitespace() {
        words.push(String::from_str(alloc, word)?)?;
    }
    Ok(words)
}

/// The call alone, so that its long contract ends here.
fn ended<R: Threads + Wait + Sync, F: Folder, S: Sink>(
    rt: &R,
    alloc: Global,
    words: &[String],
    files: &mut F,
    out: &mut S,
    err: &mut SureSink,
) -> Status {
    jmop(rt, alloc, words, files, out, err, &FreeGate)
}

fn shown(alloc: Global, status: &Status, out: &[u8], err: &[u8]) -> Result<String, AllocError> {
    let mut answer = format!(in alloc; "{status:?} {}", status.code())?;
    put_text(&mut answer, "out:", out)?;
    put_text(&mut answer, "err:", err)?;
    Ok(answer)
}

/// A command line where nothing fails and the files are long: how many bytes are written, their last line, and that of
/// what the error sink was given. In the files a `;` stands for a line feed.
pub(crate) fn long<R: Threads + Wait + Sync>(
    rt: &R,
    alloc: Global,
    case: &Case,
) -> Result<String, AllocError> {
    let text = with_line_feeds(alloc, case.text.as_slice())?;
    let mut folder = SureFolder::new(files(alloc, text.as_slice())?);
    let mut out = SureSink::new(alloc);
    let (status, err) = done(rt, alloc, case, &mut folder, &mut out)?;
    let mut answer = format!(in alloc; "{status:?} {} bytes", out.bytes().len())?;
    put_last_line(&mut answer, out.bytes())?;
    put_last_line(&mut answer, err.bytes())?;
    Ok(answer)
}

fn with_line_feeds(alloc: Global, text: &[u8]) -> Result<Vec<u8>, AllocError> {
    let mut out = Vec::new(alloc);
    for byte in text {
        out.push(if *byte == b';' { b'\n' } else { *byte })?;
    }
    Ok(out)
}

/// How the command ends on each front of the case's file, from the empty one on: a line for each front that doesn't end
/// as the one before it, with the front's length.
pub(crate) fn fronts<R: Threads + Wait + Sync>(
    rt: &R,
    alloc: Global,
    case: &Case,
) -> Result<String, AllocError> {
    let mut answer = String::new(alloc);
    let mut before = String::new(alloc);
    for file in &files(alloc, case.text.as_slice())? {
        let bytes = file.1.as_slice();
        for length in 0..=bytes.len() {
            let end = end_on(rt, alloc, case, file.0.as_str(), &bytes[..length])?;
            if end.as_str() != before.as_str() {
                let line = format!(in alloc; "{length} {end}")?;
                put_line(&mut answer, line.as_str())?;
                before = end;
            }
        }
    }
    Ok(answer)
}

/// How the command ends where the file of this name holds these bytes and there is no other: what is written, and what
/// the error sink is given.
fn end_on<R: Threads + Wait + Sync>(
    rt: &R,
    alloc: Global,
    case: &Case,
    name: &str,
    bytes: &[u8],
) -> Result<String, AllocError> {
    let mut contents = Vec::new(alloc);
    contents.extend_from_slice(bytes)?;
    let mut list = Vec::new(alloc);
    list.push((String::from_str(alloc, name)?, contents))?;
    let mut folder = SureFolder::new(list);
    let mut out = SureSink::new(alloc);
    let (_, err) = done(rt, alloc, case, &mut folder, &mut out)?;
    let told = text_of(err.bytes()).trim_end();
    format!(in alloc; "{}{told}", text_of(out.bytes()))
}

/// What is told of the status that the words name.
pub(crate) fn told(alloc: Global, case: &Case) -> Result<String, AllocError> {
    let status = status_of(case.first.as_str());
    let mut answer = format!(in alloc; "{status:?} {}", status.code())?;
    match fault_text(alloc, &status) {
        Ok(text) => put_text(&mut answer, "text:", text.as_slice())?,
        Err(_) => return Err(AllocError),
    }
    Ok(answer)
}

fn status_of(words: &str) -> Status {
    match words {
        "done" => Status::Done,
        "usage" => Status::Usage,
        "read" => Status::ReadFailed {
            file: 4_294_967_295,
        },
        "write" => Status::WriteFailed,
        "history" => Status::BadHistory,
        _ => Status::NoMemory,
    }
}

/// The facts on the specifications of all files are proofs, so there is nothing to tell but that they may be called.
pub(crate) fn laws(alloc: Global) -> Result<String, AllocError> {
    one_reading();
    String::from_str(alloc, "one reading")
}
