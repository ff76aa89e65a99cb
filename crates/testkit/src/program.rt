use crate::case::{Case, cases};
use std::alloc::{AllocError, Global};
use std::io;
use std::io::Input;

/// Reads cases from the standard input, answers each, and prints those that are answered wrongly and how many there
/// are.
pub fn run<R: Input + Print + AllocGlobal, F: Fn(Global, &Case) -> Result<String, AllocError>>(
    rt: &R,
    answer: F,
) -> io::Result<()>
    requires { F.IsAlwaysCallable answer }
{
    let text = io::read_to_string(rt.alloc(), rt.reader())?;
    let all = cases(rt.alloc(), text.as_str())?;
    let mut wrong = 0u64;
    for case in &all {
        let found = answer(rt.alloc(), case)?;
        if found.as_str() != case.wanted.as_str() {
            wrong = wrong.wrapping_add(1);
            println!(rt; "line {}: {}", case.line, found)?;
        }
    }
    println!(rt; "{} cases, {wrong} wrong", all.len())
}
