//! A dispatcher and its two seats.
ghost use Rattle.std.specs.Prelude.{◌≡◌, ◌∷◌, [], IfOk, IfSome};
ghost use Rattle.jm_turn.specs.Seats.{IsNoteOf, IsSeatOf};
ghost use Rattle.test_dispatch.specs.Acts.{AreLettersOf};

use crate::steps::{Letters, done};
use jm_core::Prop;
use jm_dispatch::{Note, Seat, Watch};
use jm_model::{Monitor, NoMemory};
use std::alloc::Global;
use std::sync::Wait;
use testkit::{number_of, put_line};
use testkit_steps::{entry_shown, outcome_shown};

/// What each step of the words is answered, `SEAT:LINE:ACT`, `SEAT:note` or `SEAT:hear`, and the entries after the end,
/// a line each.
pub(crate) fn by_two<M: Monitor>(
    rt: &impl Wait,
    alloc: Global,
    words: &str,
    rules: M,
    objects: u32,
) -> Result<String, NoMemory> {
    let letters = Letters::of(&rules);
    let (watch, mut first, mut second) = seated(alloc, rules, objects)?;
    let mut out = all_told(
        rt,
        alloc,
        &watch,
        &letters,
        objects,
        &mut first,
        &mut second,
        words,
    )?;
    let seats = pair(alloc, first, second)?;
    let entries = entries(alloc, &watch.close(seats))?;
    put_line(&mut out, entries.as_str())?;
    Ok(out)
}

/// What the seats are told at each word, a line each.
fn all_told<M: Monitor>(
    rt: &impl Wait,
    alloc: Global,
    watch: &Watch<M>,
    letters: &Letters,
    objects: u32,
    first: &mut Seat<M>,
    second: &mut Seat<M>,
    words: &str,
) -> Result<String, NoMemory>
    requires letters { AreLettersOf (M.meaning watch.now.fixed.definition) letters.now }
    requires objects { objects ≡ watch.now.fixed.objects }
    requires first { IsSeatOf watch.now first.old }
    requires second { IsSeatOf watch.now second.old }
    ensures first { IsSeatOf watch.now first.new }
    ensures second { IsSeatOf watch.now second.new }
{
    let mut note = None;
    let mut out = String::new(alloc);
    for word in words.split_whitespace() {
        let (seat, rest) = word.split_once(':').unwrap_or((word, ""));
        let told = if number_of(seat) == 1 {
            told(rt, alloc, watch, letters, objects, second, &mut note, rest)?
        } else {
            told(rt, alloc, watch, letters, objects, first, &mut note, rest)?
        };
        put_line(&mut out, told.as_str())?;
    }
    Ok(out)
}

/// What a seat is told at a word.
fn told<M: Monitor>(
    rt: &impl Wait,
    alloc: Global,
    watch: &Watch<M>,
    letters: &Letters,
    objects: u32,
    seat: &mut Seat<M>,
    note: &mut Option<Note<M>>,
    words: &str,
) -> Result<String, NoMemory>
    requires letters { AreLettersOf (M.meaning watch.now.fixed.definition) letters.now }
    requires objects { objects ≡ watch.now.fixed.objects }
    requires seat { IsSeatOf watch.now seat.old }
    requires note { IfSome note.old (λ n. IsNoteOf watch.now n) }
    ensures seat { IsSeatOf watch.now seat.new }
    ensures note { IfSome note.new (λ n. IsNoteOf watch.now n) }
{
    match words {
        "note" => {
            *note = Some(watch.note(seat));
            Ok(String::from_str(alloc, "noted")?)
        }
        "hear" => {
            if let Some(note) = note.take() {
                watch.hear(seat, note);
            }
            Ok(String::from_str(alloc, "heard")?)
        }
        _ => step(rt, alloc, watch, letters, objects, seat, words),
    }
}

/// The place and the outcome of a step.
fn step<M: Monitor>(
    rt: &impl Wait,
    alloc: Global,
    watch: &Watch<M>,
    letters: &Letters,
    objects: u32,
    seat: &mut Seat<M>,
    words: &str,
) -> Result<String, NoMemory>
    requires letters { AreLettersOf (M.meaning watch.now.fixed.definition) letters.now }
    requires objects { objects ≡ watch.now.fixed.objects }
    requires seat { IsSeatOf watch.now seat.old }
    ensures { IsSeatOf watch.now seat.new }
{
    let (line, rest) = words.split_once(':').unwrap_or((words, ""));
    let Some(act) = letters.act(rest, objects) else {
        return Ok(String::from_str(alloc, "no step")?);
    };
    let answer = done(rt, alloc, watch, letters, seat, number_of(line), act)?;
    let outcome = outcome_shown(alloc, &answer.outcome)?;
    Ok(format!(in alloc; "{} {outcome}", answer.place)?)
}

/// A dispatcher of two seats.
fn seated<M: Monitor>(
    alloc: Global,
    rules: M,
    objects: u32,
) -> Result<(Watch<M>, Seat<M>, Seat<M>), NoMemory>
    ensures fixed { IfOk result (λ r. r.0.fixed ≡ record { definition = M.definition rules; objects = objects }) }
    ensures two { IfOk result (λ r. r.0.seats ≡ 2) }
    ensures first { IfOk result (λ r. IsSeatOf r.0 r.1) }
    ensures second { IfOk result (λ r. IsSeatOf r.0 r.2) }
{
    let (watch, mut seats) = Watch::new(alloc, rules, objects, 2)?;
    let second = seats.pop();
    let first = seats.pop();
    match (first, second) {
        (Some(first), Some(second)) => Ok((watch, first, second)),
        _ => unreachable!(),
    }
}

fn pair<M: Monitor>(alloc: Global, a: Seat<M>, b: Seat<M>) -> Result<Vec<Seat<M>>, NoMemory>
    ensures { IfOk result (λ v. v.items ≡ a ∷ b ∷ []) }
{
    let mut seats = Vec::new(alloc);
    seats.push(a)?;
    seats.push(b)?;
    Ok(seats)
}

/// The entries of a core, a line each.
fn entries<M: Monitor>(alloc: Global, prop: &Prop<M>) -> Result<String, NoMemory> {
    let mut out = String::new(alloc);
    for entry in &prop.history().to_list(alloc)? {
        put_line(&mut out, entry_shown(alloc, entry)?.as_str())?;
    }
    Ok(out)
}
