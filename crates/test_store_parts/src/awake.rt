//! Steps over the lists.
ghost use Rattle.std.specs.Prelude.{◌<◌};

use jm_awake::{Awake, Card, Listed};
use jm_model::{Letter, NoMemory};
use std::alloc::{AllocError, Global};
use testkit::{Case, number_of, put, text_of};
use testkit_steps::binding_of;

/// What is asked in the text's lines, a line for each.
pub(crate) fn awake(alloc: Global, case: &Case) -> Result<String, NoMemory> {
    let mut awake = Awake::new(alloc);
    let mut out = String::new(alloc);
    for line in text_of(&case.text).lines() {
        let (verb, rest) = line.split_once(' ').unwrap_or((line, ""));
        let (first, second) = rest.split_once(' ').unwrap_or((rest, ""));
        match verb {
            "ask" => {
                let text = list_shown(alloc, &awake, letter_of(first), second)?;
                put(&mut out, '\n', text.as_str())?;
            }
            "wants" => {
                let wants = awake.wants(number_of(first) as usize, number_of(second));
                put(&mut out, '\n', if wants { "yes" } else { "no" })?;
            }
            "list" => list(alloc, &mut awake, letter_of(first), second)?,
            _ => act(&mut awake, verb, first, second),
        }
    }
    Ok(out)
}

/// A letter, below 32.
fn letter_of(text: &str) -> Letter
    ensures { result.0 < 32 }
{
    Letter((number_of(text) % 32) as u8)
}

fn act(awake: &mut Awake, verb: &str, first: &str, second: &str) {
    let slot = number_of(first) as usize;
    match verb {
        "wake" => wake(awake, slot, second, false, true),
        "wake_dead" => wake(awake, slot, second, true, true),
        "wake_without_memory" => wake(awake, slot, second, false, false),
        "cover" => {
            let _there = awake.cover(slot, true);
        }
        "mourn" => awake.mourn(slot),
        "leave" => awake.leave(slot),
        "unlist" => awake.unlist(slot, letter_of(second)),
        "tidy" => tidy(awake, letter_of(first), second),
        "bury" => awake.bury(number_of(first)),
        "forget" => awake.forget(),
        _ => {}
    }
}

/// Wakes a slot of an instance, which rests at the letters whose bits the number after it has.
fn wake(awake: &mut Awake, slot: usize, words: &str, mourns: bool, grows: bool) {
    let (instance, resting) = words.split_once(' ').unwrap_or((words, ""));
    awake.wake(
        slot,
        &binding_of(instance),
        number_of(resting),
        mourns,
        grows,
    );
}

fn tidy(awake: &mut Awake, letter: Letter, binding: &str)
    requires { letter.0 < 32 }
{
    if let Some(place) = awake.find(letter, &binding_of(binding)) {
        awake.tidy(place);
    }
}

/// Makes the list of a letter and a binding, of the slots after it.
fn list(alloc: Global, awake: &mut Awake, letter: Letter, words: &str) -> Result<(), NoMemory>
    requires { letter.0 < 32 }
{
    let (binding, rest) = words.split_once(' ').unwrap_or((words, ""));
    let mut slots = Vec::new(alloc);
    for word in rest.split(' ') {
        slots.push(number_of(word) as usize)?;
    }
    awake.list_all(letter, &binding_of(binding), slots.as_slice());
    Ok(())
}

/// The entries of the list of a letter and a binding. After one that isn't whole any more stands a `+`, after one that
/// doesn't count any more a `-`.
fn list_shown(
    alloc: Global,
    awake: &Awake,
    letter: Letter,
    binding: &str,
) -> Result<String, NoMemory>
    requires { letter.0 < 32 }
{
    let mut out = String::new(alloc);
    let Some(place) = awake.find(letter, &binding_of(binding)) else {
        out.push_str("no list")?;
        return Ok(out);
    };
    for entry in awake.entries(place) {
        let text = entry_shown(alloc, awake.cards(), entry)?;
        put(&mut out, ' ', text.as_str())?;
    }
    if out.is_empty() {
        out.push_str("none")?;
    }
    Ok(out)
}

fn entry_shown(alloc: Global, cards: &[Card], entry: &Listed) -> Result<String, AllocError> {
    let slot = entry.slot();
    let mark = match cards.get(slot) {
        Some(card) if card.is_whole(entry) => "",
        Some(card) if card.is_there(entry) => "+",
        _ => "-",
    };
    format!(in alloc; "{slot}{mark}")
}
