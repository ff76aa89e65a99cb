use crate::both::Both;
use crate::random::{Runs, random};
use jm_model::{Monitor, NoMemory};
use std::alloc::{AllocError, Global};
use testkit::{Case, byte_of, number_of, numbers_of, put};
use testkit_monitor::Table;
use testkit_rules::rules_of;
use testkit_steps::{or_no_memory, step_of};

/// What the case's verb answers.
pub(crate) fn answer(alloc: Global, case: &Case) -> Result<String, AllocError> {
    or_no_memory(alloc, answered(alloc, case))
}

/// The answer over the number of objects after the `/`. The rules are those of the case's text, or the table whose
/// name stands after that number: `unsafe_iter`, or `tick` with what a reported instance has to bind.
fn answered(alloc: Global, case: &Case) -> Result<String, NoMemory> {
    let (objects, table) = case
        .second
        .split_once(' ')
        .unwrap_or((case.second.as_str(), ""));
    let objects = number_of(objects);
    if table == "unsafe_iter" {
        return told(alloc, case, &Table::unsafe_iter(0), objects);
    }
    if let Some(must_bind) = table.strip_prefix("tick ") {
        return told(alloc, case, &Table::tick(byte_of(must_bind)), objects);
    }
    match rules_of(alloc, &case.text) {
        Ok(rules) => told(alloc, case, &rules, objects),
        Err(fault) => Ok(format!(in alloc; "{fault:?}")?),
    }
}

/// The law on deaths is proved: that it can be called is all that is to be seen.
fn law<M: Monitor>(rules: &M) {
    jm_store::death_keeps_store(rules);
}

/// The answer of the verb `steps`, or of another that of runs of words `SEED STEPS COUNT`.
fn told<M: Monitor>(
    alloc: Global,
    case: &Case,
    rules: &M,
    objects: u32,
) -> Result<String, NoMemory> {
    law(rules);
    let mut both = Both::new(alloc, rules, objects)?;
    let words = case.first.as_str();
    if case.verb.as_str() == "steps" {
        return steps(alloc, words, &mut both);
    }
    if let [seed, steps, count] = numbers_of(alloc, words)?.as_slice() {
        let runs = Runs {
            seed: *seed,
            steps: *steps,
            count: *count,
            objects,
        };
        random(&mut both, rules, runs)?;
    }
    both.told()
}

/// The answer of each word, with a space between two: of a step, as `event:LETTER:BINDING`, `death:OBJECT` or `pass`,
/// its outcome; and of `lists` the stored bindings and the marks. After these stand the lines for answers that differ.
fn steps<M: Monitor>(
    alloc: Global,
    words: &str,
    both: &mut Both<'_, M>,
) -> Result<String, NoMemory> {
    let mut out = String::new(alloc);
    for word in words.split_whitespace() {
        let answer = match word {
            "lists" => both.lists()?,
            step => both.step(&step_of(step))?,
        };
        put(&mut out, ' ', answer.as_str())?;
    }
    out.push_str(both.differ.as_str())?;
    Ok(out)
}
