ghost use Rattle.std.specs.Prelude.{◌≡◌, ◌<◌, All, length};
ghost use Rattle.jm_coenable.specs.Needs.{AreFit};

use crate::property::{events_of, goal_of, table_of};
use jm_coenable::{Needs, step};
use jm_events::EventTable;
use jm_goal::Goal;
use jm_model::{Letter, NoMemory, SpecError};
use jm_table::Table;
use std::alloc::{AllocError, Global};
use testkit::Case;

/// For the empty word, and for each word of the case, whose digits are letters, whether some word that follows leads to
/// a match and has none of the dead parameters, `+` or `-` for each of the case's sets of dead parameters; and then the
/// family of each letter. The words stand before a `|`, the sets after it.
pub(crate) fn needs(alloc: Global, case: &Case) -> Result<String, SpecError> {
    let events = events_of(alloc, case.first.as_str())?;
    over_events(alloc, case, &events)
}

fn over_events(alloc: Global, case: &Case, events: &EventTable) -> Result<String, SpecError> {
    let table = table_of(alloc, events, case.text.as_slice())?;
    over_table(alloc, case, events, &table)
}

fn over_table(
    alloc: Global,
    case: &Case,
    events: &EventTable,
    table: &Table,
) -> Result<String, SpecError>
    requires { length table.now.groups ≡ 2 }
{
    if events.letters() != table.letters() {
        return Err(SpecError::NoMemory);
    }
    let resetting = case.verb.as_str() == "resetting";
    let goal = goal_of(alloc, events.creation(), resetting)?;
    Ok(over_goal(alloc, case, events, table, &goal)?)
}

fn over_goal(
    alloc: Global,
    case: &Case,
    events: &EventTable,
    table: &Table,
    goal: &Goal,
) -> Result<String, NoMemory>
    requires { AreFit table.now goal.now events.now }
{
    let needs = Needs::new(alloc, table, goal, events)?;
    let mut out = String::new(alloc);
    put_words(&mut out, case.second.as_str(), table, goal, &needs)?;
    put_families(alloc, &mut out, table.letters(), &needs)?;
    Ok(out)
}

fn put_words(
    out: &mut String,
    words: &str,
    table: &Table,
    goal: &Goal,
    needs: &Needs,
) -> Result<(), AllocError>
    requires count { length needs.now.alive ≡ table.now.states }
    requires groups { All (λ group. group < length table.now.groups) goal.now.groups }
{
    let (words, sets) = words.split_once(" | ").unwrap_or((words, ""));
    put_start(out, sets, needs)?;
    for word in words.split_whitespace() {
        put_word(out, word, sets, table, goal, needs)?;
    }
    Ok(())
}

/// What is needed after the empty word, of which nothing says yet how it may go on.
fn put_start(out: &mut String, sets: &str, needs: &Needs) -> Result<(), AllocError> {
    out.push_str("start ")?;
    for set in sets.split_whitespace() {
        let alive = needs.alive_at_start(set.parse::<u8>().unwrap_or(0));
        out.push(if alive { '+' } else { '-' })?;
    }
    out.push('\n')
}

fn put_word(
    out: &mut String,
    word: &str,
    sets: &str,
    table: &Table,
    goal: &Goal,
    needs: &Needs,
) -> Result<(), AllocError>
    requires count { length needs.now.alive ≡ table.now.states }
    requires groups { All (λ group. group < length table.now.groups) goal.now.groups }
{
    out.push_str(word)?;
    out.push(' ')?;
    let state = state_after(table, goal, word);
    let started = is_started(goal.creation(), word);
    put_sets(out, sets, needs, state, started)
}

fn put_sets(
    out: &mut String,
    sets: &str,
    needs: &Needs,
    state: u16,
    started: bool,
) -> Result<(), AllocError>
    requires { state < length needs.now.alive }
{
    for set in sets.split_whitespace() {
        let alive = needs.alive(state, started, set.parse::<u8>().unwrap_or(0));
        out.push(if alive { '+' } else { '-' })?;
    }
    out.push('\n')
}

/// The state after the letters of a word that there are.
fn state_after(table: &Table, goal: &Goal, word: &str) -> u16
    requires { All (λ group. group < length table.now.groups) goal.now.groups }
    ensures { result < table.now.states }
{
    let mut state = table.start();
    for digit in word.bytes() {
        let letter = letter_of(digit);
        if letter < table.letters() {
            state = step(table, goal, state, Letter(letter));
        }
    }
    state
}

/// The letter of a digit, and 255 for another byte: `-` is the empty word.
fn letter_of(digit: u8) -> u8 {
    match digit {
        b'0'..=b'9' => digit - b'0',
        _ => 255,
    }
}

/// Whether a word begins with a creation letter, or there are none.
fn is_started(creation: u32, word: &str) -> bool {
    let first = letter_of(word.bytes().next().unwrap_or(b'-'));
    creation == 0 || first < 32 && (creation >> first) & 1 == 1
}

fn put_families(alloc: Global, out: &mut String, letters: u8, needs: &Needs) -> Result<(), NoMemory>
    requires { length needs.now.families ≡ letters }
{
    for letter in 0..letters {
        put_family(alloc, out, needs, Letter(letter))?;
    }
    Ok(())
}

fn put_family(
    alloc: Global,
    out: &mut String,
    needs: &Needs,
    letter: Letter,
) -> Result<(), NoMemory>
    requires { letter.0 < length needs.now.families }
{
    let family = needs.family(letter)?;
    out.push_str(format!(in alloc; "{}:", letter.0)?.as_str())?;
    for mask in &family {
        out.push_str(format!(in alloc; " {mask}")?.as_str())?;
    }
    out.push('\n')?;
    Ok(())
}
