use jm_port::MemorySink;
use std::alloc::{AllocError, Global};

/// The numbers among the words of a text: which calls fail.
pub fn calls_of(alloc: Global, words: &str) -> Result<Vec<u64>, AllocError> {
    let mut calls = Vec::new(alloc);
    for word in words.split_whitespace() {
        if let Ok(number) = word.parse::<u64>() {
            calls.push(number)?;
        }
    }
    Ok(calls)
}

/// The sink of `STEP CALL..`, which takes so many bytes at a time and fails at these calls.
pub fn sink_of(alloc: Global, words: &str) -> Result<MemorySink, AllocError> {
    let (step, calls) = words.split_once(' ').unwrap_or((words, ""));
    let fail = calls_of(alloc, calls)?;
    let step = step.parse::<usize>().unwrap_or(1).max(1);
    Ok(MemorySink::new(alloc, step, fail))
}
