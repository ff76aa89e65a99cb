use jm_gen::{GenError, Workload, workload};
use std::alloc::{AllocError, Global};
use testkit::{Case, number_of, put_line, text_of};

/// What is found in the workload of the rounds that the case's first word says. The verb says what is looked for:
/// `spec` and `script` a file by its number, `size` how many lines each script has.
pub(crate) fn answer(alloc: Global, case: &Case) -> Result<String, AllocError> {
    let number = number_of(case.second.as_str()) as usize;
    match workload(alloc, number_of(case.first.as_str())) {
        Ok(files) => match case.verb.as_str() {
            "spec" => file(alloc, files.specs.as_slice(), number),
            "script" => file(alloc, files.scripts.as_slice(), number),
            _ => sizes(alloc, &files),
        },
        Err(GenError::OutOfRange) => String::from_str(alloc, "out of range"),
        Err(GenError::NoMemory) => String::from_str(alloc, "out of memory"),
    }
}

/// A file without the line feed at its end.
fn file(alloc: Global, files: &[Vec<u8>], number: usize) -> Result<String, AllocError> {
    match files.get(number) {
        Some(file) => {
            let text = text_of(file.as_slice());
            String::from_str(alloc, text.strip_suffix('\n').unwrap_or(text))
        }
        None => String::from_str(alloc, "no such file"),
    }
}

/// How many lines each script has.
fn sizes(alloc: Global, files: &Workload) -> Result<String, AllocError> {
    let mut out = format!(in alloc; "{} specifications", files.specs.len())?;
    for script in &files.scripts {
        let lines = lines_of(text_of(script.as_slice()));
        put_line(&mut out, format!(in alloc; "{lines} lines")?.as_str())?;
    }
    Ok(out)
}

fn lines_of(text: &str) -> u64 {
    let mut lines = 0u64;
    for _ in text.lines() {
        lines = lines.wrapping_add(1);
    }
    lines
}
