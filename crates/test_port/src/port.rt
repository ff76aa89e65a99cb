//! Folders and sinks in memory.
use jm_port::{Folder, MemoryFolder, MemorySink, PutFault, Sink, SureFolder, SureSink, put_all};
use std::alloc::{AllocError, Global};
use testkit::{Case, put_line, text_of};
use testkit_files::{calls_of, files, sink_of};

/// The loads `NAME:LIMIT` of the words from a folder of the text's files, of which those after the `/` fail.
pub(crate) fn memory_folder(alloc: Global, case: &Case) -> Result<String, AllocError> {
    let fail = calls_of(alloc, case.second.as_str())?;
    let mut folder = MemoryFolder::new(files(alloc, case.text.as_slice())?, fail);
    loads(alloc, &mut folder, case.first.as_str())
}

/// The loads of the words from a folder whose loads never fail.
pub(crate) fn sure_folder(alloc: Global, case: &Case) -> Result<String, AllocError> {
    let mut folder = SureFolder::new(files(alloc, case.text.as_slice())?);
    loads(alloc, &mut folder, case.first.as_str())
}

/// What each load of the words answers, on a line each.
fn loads<F: Folder>(alloc: Global, folder: &mut F, words: &str) -> Result<String, AllocError> {
    let mut answer = String::new(alloc);
    for word in words.split_whitespace() {
        let (name, limit) = word.split_once(':').unwrap_or((word, ""));
        let loaded = folder.load(name, limit.parse::<usize>().unwrap_or(0));
        let line = match loaded {
            Ok(bytes) => format!(in alloc; "{word} {:?}", text_of(bytes.as_slice()))?,
            Err(fault) => format!(in alloc; "{word} {fault:?}")?,
        };
        put_line(&mut answer, line.as_str())?;
    }
    Ok(answer)
}

/// The puts of the text into a sink of `STEP / CALL..`, and after each what was written so far.
pub(crate) fn memory_sink(alloc: Global, case: &Case) -> Result<String, AllocError> {
    let words = format!(in alloc; "{} {}", case.first, case.second)?;
    let mut sink = sink_of(alloc, words.as_str())?;
    let mut answer = String::new(alloc);
    for step in &files(alloc, case.text.as_slice())? {
        let line = put(alloc, &mut sink, step.0.as_str(), step.1.as_slice())?;
        put_line(&mut answer, line.as_str())?;
        put_written(alloc, &mut answer, sink.bytes())?;
    }
    Ok(answer)
}

/// The puts of the text into a sink whose puts never fail.
pub(crate) fn sure_sink(alloc: Global, case: &Case) -> Result<String, AllocError> {
    let mut sink = SureSink::new(alloc);
    let mut answer = String::new(alloc);
    for step in &files(alloc, case.text.as_slice())? {
        let line = put(alloc, &mut sink, step.0.as_str(), step.1.as_slice())?;
        put_line(&mut answer, line.as_str())?;
        put_written(alloc, &mut answer, sink.bytes())?;
    }
    Ok(answer)
}

fn put_written(alloc: Global, answer: &mut String, bytes: &[u8]) -> Result<(), AllocError> {
    let written = format!(in alloc; " {:?}", text_of(bytes))?;
    answer.push_str(written.as_str())
}

/// What a sink answers to a piece, which is put once or whole.
pub(crate) fn put<S: Sink>(
    alloc: Global,
    sink: &mut S,
    verb: &str,
    piece: &[u8],
) -> Result<String, AllocError> {
    if verb == "put_all" {
        return format!(in alloc; "{:?}", put_all(sink, piece));
    }
    format!(in alloc; "{:?}", sink.put(piece))
}
