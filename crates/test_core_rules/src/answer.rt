use crate::lists::list_shown;
use crate::rig::Rig;
use crate::stingy::Stingy;
use jm_machine::Rules;
use jm_model::{Monitor, NoMemory, SpecError};
use std::alloc::{AllocError, Global};
use testkit::{Case, number_of, put};
use testkit_rules::rules_of;
use testkit_steps::{or_no_memory, outcome_shown};

/// What the runs of a case answer, over the specification in its text and so many objects, with a `|` between two.
pub(crate) fn answer(alloc: Global, case: &Case) -> Result<String, AllocError> {
    let mut out = String::new(alloc);
    for words in case.first.split('|') {
        let one = told(alloc, case, words)?;
        put(&mut out, '|', one.as_str())?;
    }
    Ok(out)
}

fn told(alloc: Global, case: &Case, words: &str) -> Result<String, AllocError> {
    match rules_of(alloc, &case.text) {
        Ok(rules) => or_no_memory(alloc, answered(alloc, case, words, rules)),
        Err(fault) => format!(in alloc; "{fault:?}"),
    }
}

fn answered(alloc: Global, case: &Case, words: &str, rules: Rules) -> Result<String, NoMemory> {
    let (objects, refused) = case
        .second
        .split_once(' ')
        .unwrap_or((case.second.as_str(), ""));
    let objects = number_of(objects);
    match case.verb.as_str() {
        "run" => run(alloc, words, Rig::new(alloc, rules, objects)?),
        "stingy" => {
            let (behind, count) = refused.split_once(' ').unwrap_or((refused, ""));
            let rules = Stingy::new(rules, number_of(behind), number_of(count));
            run(alloc, words, Rig::new(alloc, rules, objects)?)
        }
        _ => replay(alloc, words, Rig::new(alloc, rules, objects)?),
    }
}

/// The answer of each word, with one space between two.
fn run<M: Monitor>(alloc: Global, words: &str, mut rig: Rig<M>) -> Result<String, NoMemory> {
    let mut out = String::new(alloc);
    for word in words.split_whitespace() {
        let answer = match word {
            "stored" => list_shown(alloc, &rig.stored()?)?,
            "marks" => list_shown(alloc, &rig.marks()?)?,
            "entries" => format!(in alloc; "{} entries", rig.history().len())?,
            step => outcome_shown(alloc, &rig.fire(step)?)?,
        };
        put(&mut out, ' ', answer.as_str())?;
    }
    Ok(out)
}

/// The outcomes in the history after a replay of all words.
fn replay<M: Monitor>(alloc: Global, words: &str, mut rig: Rig<M>) -> Result<String, NoMemory> {
    rig.replay(words)?;
    let mut out = String::new(alloc);
    for entry in &rig.history().to_list(alloc)? {
        let answer = outcome_shown(alloc, &entry.outcome)?;
        put(&mut out, ' ', answer.as_str())?;
    }
    Ok(out)
}
