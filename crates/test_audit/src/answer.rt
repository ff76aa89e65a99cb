//! What the cases ask.
use crate::verdict::verdict;
use jm_audit::Verdict;
use jm_inputs::{Setting, read_inputs};
use jm_model::NoMemory;
use jm_port::{Folder, SureFolder};
use std::alloc::{AllocError, Global};
use testkit::Case;
use testkit_files::{File, files};

/// The verdict on the file that the case's verb names, over the specifications and scripts that its words name, with
/// `--` between them. Where that is `long`, a `;` in a file stands for a line feed.
pub(crate) fn answer(alloc: Global, case: &Case) -> Result<String, AllocError> {
    let mut folder = SureFolder::new(files_of(alloc, case)?);
    let text = match folder.load(case.verb.as_str(), 67_108_864) {
        Ok(text) => text,
        Err(_) => return String::from_str(alloc, "no text"),
    };
    let (specs, scripts) = case
        .first
        .split_once(" -- ")
        .unwrap_or((case.first.as_str(), ""));
    let specs = words_of(alloc, specs)?;
    let scripts = words_of(alloc, scripts)?;
    if specs.len() > 16 || scripts.len() > 16 {
        return String::from_str(alloc, "too many files");
    }
    let setting = Setting {
        files: 1,
        steps: 198_000,
        ordered: false,
    };
    match read_inputs(
        alloc,
        specs.as_slice(),
        scripts.as_slice(),
        setting,
        &mut folder,
    ) {
        Ok(inputs) => shown(alloc, verdict(alloc, &inputs, text.as_slice())),
        Err(status) => format!(in alloc; "{status:?}"),
    }
}

fn files_of(alloc: Global, case: &Case) -> Result<Vec<File>, AllocError> {
    if case.verb.as_str() != "long" {
        return files(alloc, case.text.as_slice());
    }
    let mut text = Vec::new(alloc);
    for byte in &case.text {
        text.push(if *byte == b';' { b'\n' } else { *byte })?;
    }
    files(alloc, text.as_slice())
}

fn words_of(alloc: Global, line: &str) -> Result<Vec<String>, AllocError> {
    let mut words = Vec::new(alloc);
    for word in line.split_whitespace() {
        words.push(String::from_str(alloc, word)?)?;
    }
    Ok(words)
}

/// The verdict, as the command prints it.
fn shown(alloc: Global, verdict: Result<Verdict, NoMemory>) -> Result<String, AllocError> {
    match verdict {
        Ok(Verdict::Yes) => String::from_str(alloc, "yes"),
        Ok(Verdict::No { line }) => format!(in alloc; "no, line {line}"),
        Err(_) => Err(AllocError),
    }
}
