//! The parts of a case.
ghost use Rattle.std.specs.Prelude.{◌≡◌, ◌<◌, true, IfSome, IfOk, All};
ghost use Rattle.jm_core.specs.Steps.{IsFitStep};
ghost use Rattle.jm_sweep.specs.Sweeps.{Fits};

use jm_model::{Binding, Letter, Monitor, NoMemory, Step};
use jm_sweep::Part;
use std::alloc::{AllocError, Global};
use testkit::{byte_of, number_of};

/// The parts of a line, with a `|` between two.
pub(crate) fn parts_of<M: Monitor>(
    alloc: Global,
    rules: &M,
    objects: u32,
    line: &str,
) -> Result<Vec<Part>, NoMemory>
    ensures { IfOk result (λ parts. All
        (λ p. Fits (M.meaning (M.definition rules.now)) p.objects p.steps.items) parts.items) }
{
    let mut parts = Vec::new(alloc);
    for words in line.split('|') {
        let part = part_of(alloc, rules, objects, words)?;
        parts.push(part)?;
    }
    Ok(parts)
}

/// The steps of all words, each with its number, from 1.
pub(crate) fn part_of<M: Monitor>(
    alloc: Global,
    rules: &M,
    objects: u32,
    words: &str,
) -> Result<Part, NoMemory>
    ensures { IfOk result (λ p. Fits (M.meaning (M.definition rules.now)) p.objects p.steps.items) }
{
    let steps = steps_of(alloc, rules, objects, words)?;
    Ok(Part { objects, steps })
}

fn steps_of<M: Monitor>(
    alloc: Global,
    rules: &M,
    objects: u32,
    words: &str,
) -> Result<Vec<(u32, Step)>, NoMemory>
    ensures { IfOk result (λ steps. Fits (M.meaning (M.definition rules.now)) objects steps.items) }
{
    let mut steps = Vec::new(alloc);
    let mut number = 0u32;
    for word in words.split_whitespace() {
        number = number.wrapping_add(1);
        if let Some(step) = step_of(alloc, rules, objects, word)? {
            steps.push((number, step))?;
        }
    }
    Ok(steps)
}

/// The step of a word: `event:LETTER:OBJECT,..`, `death:OBJECT` or `pass`.
fn step_of<M: Monitor>(
    alloc: Global,
    rules: &M,
    objects: u32,
    word: &str,
) -> Result<Option<Step>, NoMemory>
    ensures { IfOk result (λ step. IfSome step (IsFitStep (M.meaning (M.definition rules.now)) objects)) }
{
    let (verb, rest) = word.split_once(':').unwrap_or((word, ""));
    match verb {
        "event" => {
            let (letter, named) = rest.split_once(':').unwrap_or((rest, ""));
            let named = numbers(alloc, named)?;
            Ok(event(rules, objects, Letter(byte_of(letter)), &named))
        }
        "death" => Ok(death(rules, objects, number_of(rest))),
        _ => Ok(Some(Step::Pass)),
    }
}

fn death<M: Monitor>(rules: &M, objects: u32, object: u32) -> Option<Step>
    ensures { IfSome result (IsFitStep (M.meaning (M.definition rules.now)) objects) }
{
    let _rules = rules;
    if object < objects {
        Some(Step::Death { object })
    } else {
        None
    }
}

/// The event of a letter and the objects of its parameters.
fn event<M: Monitor>(rules: &M, objects: u32, letter: Letter, named: &[u32]) -> Option<Step>
    ensures { IfSome result (IsFitStep (M.meaning (M.definition rules.now)) objects) }
{
    if letter.0 >= rules.letters() {
        return None;
    }
    let mask = rules.params(letter);
    if mask.count_ones() as usize != named.len() || !are_below(named, objects) {
        return None;
    }
    Some(Step::Event {
        letter,
        binding: Binding::of(mask, named),
    })
}

/// Whether all these objects are below a number.
fn are_below(objects: &[u32], n: u32) -> bool
    ensures { result ≡ true → All (λ o. o < n) objects.now }
{
    objects.iter().all(|object| *object < n)
}

fn numbers(alloc: Global, words: &str) -> Result<Vec<u32>, AllocError> {
    let mut numbers = Vec::new(alloc);
    for word in words.split(',') {
        if !word.is_empty() {
            numbers.push(number_of(word))?;
        }
    }
    Ok(numbers)
}
