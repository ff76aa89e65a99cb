//! A script of a workload.
ghost use Rattle.std.specs.Prelude.{◌≡◌, ◌≤◌, ◌<◌, ◌++◌, string_bytes, IfOk, OnOk};
ghost use Rattle.jm_gen.specs.Scripts.{object, step_line, round_over, round_text, script_text, most_rounds};

use itoa::Buffer;
use std::alloc::{AllocError, Global};

/// After how many rounds a pass comes.
const ROUNDS_TO_A_PASS: u32 = 16;

/// The script of a number, with `n` rounds.
pub(crate) fn script(alloc: Global, number: u32, n: u32) -> Result<Vec<u8>, AllocError>
    requires { n ≤ most_rounds }
    ensures { IfOk result (λ text. text.items ≡ script_text number n) }
{
    let mut text = String::new(alloc);
    for round in 0..n {
        add_round(alloc, &mut text, number, round)?;
    }
    Ok(text.into_bytes())
}

/// Adds a round, and the passes that follow it.
#[tactic(auto, unfolding(crate::specs::Scripts::round_text, crate::specs::Scripts::passes_after))]
fn add_round(alloc: Global, text: &mut String, number: u32, round: u32) -> Result<(), AllocError>
    requires { round < most_rounds }
    ensures { OnOk result (string_bytes text.new ≡ string_bytes text.old ++ round_text number round) }
{
    let collection = object(alloc, "c", number, round)?;
    let iterator = object(alloc, "i", number, round)?;
    add_steps(text, collection.as_str(), iterator.as_str())?;
    if (round + 1) % ROUNDS_TO_A_PASS == 0 {
        text.push_str("pass UnsafeIter\npass HasNext\n")?;
    }
    Ok(())
}

/// The name of an object of a round, after the letter of its kind.
#[tactic(auto, unfolding(crate::specs::Scripts::object))]
fn object(alloc: Global, kind: &str, number: u32, round: u32) -> Result<String, AllocError>
    ensures { IfOk result (λ text. string_bytes text ≡ object kind.now number round) }
{
    let mut text = String::new(alloc);
    let mut buffer = Buffer::new();
    text.push_str(kind)?;
    text.push_str(buffer.format(number))?;
    text.push_str("_")?;
    text.push_str(buffer.format(round))?;
    Ok(text)
}

/// Adds the steps of a round over a collection and its iterator.
#[tactic(auto, unfolding(crate::specs::Scripts::round_over))]
fn add_steps(text: &mut String, collection: &str, iterator: &str) -> Result<(), AllocError>
    ensures { OnOk result (string_bytes text.new ≡ string_bytes text.old ++ round_over collection.now iterator.now) }
{
    text.push_str("UnsafeIter.create ")?;
    text.push_str(collection)?;
    text.push_str(" ")?;
    text.push_str(iterator)?;
    text.push_str("\n")?;
    add_step(text, "UnsafeIter.update ", collection)?;
    add_step(text, "UnsafeIter.next ", iterator)?;
    add_step(text, "HasNext.next ", iterator)?;
    add_step(text, "death ", iterator)?;
    add_step(text, "death ", collection)?;
    Ok(())
}

/// Adds a step on an object, after the step's words.
#[tactic(auto, unfolding(crate::specs::Scripts::step_line))]
fn add_step(text: &mut String, words: &str, object: &str) -> Result<(), AllocError>
    ensures { OnOk result (string_bytes text.new ≡ string_bytes text.old ++ step_line words.now object.now) }
{
    text.push_str(words)?;
    text.push_str(object)?;
    text.push_str("\n")
}
