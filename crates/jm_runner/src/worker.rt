//! What one caller does.
ghost use Rattle.std.specs.Prelude.{◌≡◌, ◌<◌, ◌≤◌, [], All, IfOk, OnOk, length, vec_len};
ghost use Rattle.jm_core.specs.Steps.{IsFitStep};
ghost use Rattle.jm_turn.specs.Seats.{IsSeatOf};
ghost use Rattle.jm_script.specs.Blocks.{StandsFrom};
ghost use Rattle.jm_runner.specs.Notes.{KnowPosts, TakesPart};
ghost use Rattle.jm_runner.specs.Work.{AreSeatsOf, DoesLine, DoesLineBelow, DoesStep, DoLines, FitsWatch, FitsWatches, HaveDone, HaveWorked};
ghost use Rattle.jm_script.specs.Catalogs.{most_specs};

use crate::gate::Gate;
use crate::notices::Notices;
use crate::parcel::Naming;
use jm_dispatch::{Seat, Watch};
use jm_model::{Monitor, NoMemory, Outcome, Step};
use jm_script::{LineQueue, ScriptLine};
use jm_sync::Cut;
use std::alloc::Global;
use std::sync::Wait;

/// The seats of one caller, and the lines of its script that aren't done.
#[derive(Drop)]
pub(crate) struct Hand<M: Monitor> {
    pub seats: Vec<Seat<M>>,
    pub lines: LineQueue,
}

/// Does the lines of a caller's script in order, on one seat of each watch, and passes the lines that ask for order
/// where they stand. Each line is let go once it is done. A caller that stops gives up the names that it hasn't posted.
pub(crate) fn work<M: Monitor, J: Naming<M::Definition>, G: Gate>(
    rt: &impl Wait,
    alloc: Global,
    watches: &[Watch<M>],
    caller: u32,
    mut hand: Hand<M>,
    cut: &Cut,
    notices: &Notices<M, J>,
    gate: &G,
) -> Result<Hand<M>, NoMemory>
    requires bounded { length watches.now ≤ most_specs }
    requires seats { HaveDone caller [] watches.now hand.seats.items }
    requires fits { All (λ line. FitsWatches M.meaning watches.now line) hand.lines }
    requires part { TakesPart J.scripts J.cuts J.watches caller hand.lines cut.now.lines.items watches.now }
    requires names { All (λ l. l.name < notices.now) cut.now.lines.items }
    ensures done { IfOk result (λ back. HaveDone caller hand.lines watches.now back.seats.items) }
    ensures know { IfOk result (λ back. KnowPosts J.scripts J.cuts cut.now.lines.items back.seats.items) }
{
    let mut passed = 0;
    match do_script(
        rt,
        alloc,
        watches,
        caller,
        &mut hand,
        cut,
        notices,
        gate,
        &mut passed,
    ) {
        Ok(()) => Ok(hand),
        Err(refused) => {
            notices.give_up(rt, &cut.lines[passed..]);
            Err(refused)
        }
    }
}

/// Does all lines, and counts the lines that ask for order and were passed.
fn do_script<M: Monitor, J: Naming<M::Definition>, G: Gate>(
    rt: &impl Wait,
    alloc: Global,
    watches: &[Watch<M>],
    caller: u32,
    hand: &mut Hand<M>,
    cut: &Cut,
    notices: &Notices<M, J>,
    gate: &G,
    passed: &mut usize,
) -> Result<(), NoMemory>
    requires bounded { length watches.now ≤ most_specs }
    requires seats { HaveDone caller [] watches.now hand.old.seats.items }
    requires fits { All (λ line. FitsWatches M.meaning watches.now line) hand.old.lines }
    requires part { TakesPart J.scripts J.cuts J.watches caller hand.old.lines cut.now.lines.items watches.now }
    requires names { All (λ l. l.name < notices.now) cut.now.lines.items }
    ensures passed { passed.new ≤ vec_len cut.now.lines }
    ensures done { OnOk result (HaveDone caller hand.old.lines watches.now hand.new.seats.items) }
    ensures know { OnOk result (KnowPosts J.scripts J.cuts cut.now.lines.items hand.new.seats.items) }
{
    let mut done = 0;
    *passed = 0;
    for sync in &cut.lines {
        done = do_lines(
            rt,
            alloc,
            watches,
            caller,
            hand,
            Some(sync.line),
            done,
            gate,
        )?;
        notices.pass(rt, alloc, watches, &mut hand.seats, *sync)?;
        *passed += 1;
    }
    do_lines(rt, alloc, watches, caller, hand, None, done, gate)?;
    Ok(())
}

/// Does the lines that stand above line `above`; without such a line, all that are left. The gate counts a caller's
/// lines from 1. The answer is how many are done, where `done` were done before, or 2^32 - 1 where they are more.
fn do_lines<M: Monitor, G: Gate>(
    rt: &impl Wait,
    alloc: Global,
    watches: &[Watch<M>],
    caller: u32,
    hand: &mut Hand<M>,
    above: Option<u32>,
    done: u32,
    gate: &G,
) -> Result<u32, NoMemory>
    requires bounded { length watches.now ≤ most_specs }
    requires seats { HaveWorked caller watches.now hand.old.seats.items }
    requires fits { All (λ line. FitsWatches M.meaning watches.now line) hand.old.lines }
    ensures done { OnOk result
        (DoLines watches.now above hand.old.lines hand.new.lines hand.old.seats.items hand.new.seats.items) }
    ensures left { OnOk result (All (StandsFrom above) hand.new.lines) }
{
    let mut count = done;
    while let Some(line) = hand.lines.pop_above(above) {
        count = count.saturating_add(1);
        gate.before(caller, count);
        do_line(rt, alloc, watches, &mut hand.seats, &line)?;
        gate.after(caller, count);
    }
    Ok(count)
}

/// Does a line on each watch that it is for, in order.
fn do_line<M: Monitor>(
    rt: &impl Wait,
    alloc: Global,
    watches: &[Watch<M>],
    seats: &mut Vec<Seat<M>>,
    line: &ScriptLine,
) -> Result<(), NoMemory>
    requires bounded { length watches.now ≤ most_specs }
    requires seats { AreSeatsOf watches.now seats.old.items }
    requires fits { FitsWatches M.meaning watches.now line.now }
    ensures { OnOk result (DoesLineBelow (length watches.now) watches.now line.now seats.old.items seats.new.items) }
{
    for spec in 0..watches.len() as u8 {
        do_on(
            rt,
            alloc,
            &watches[spec as usize],
            &mut seats[spec as usize],
            spec,
            line,
        )?;
    }
    Ok(())
}

/// Does a line on the watch of a specification, where it is for it.
fn do_on<M: Monitor>(
    rt: &impl Wait,
    alloc: Global,
    watch: &Watch<M>,
    seat: &mut Seat<M>,
    spec: u8,
    line: &ScriptLine,
) -> Result<(), NoMemory>
    requires seat { IsSeatOf watch.now seat.old }
    requires fits { FitsWatch M.meaning watch.now spec line.now }
    ensures { OnOk result (DoesLine watch.now spec line.now seat.old seat.new) }
{
    match line.target.step_for(spec) {
        Some(step) => do_step(rt, alloc, watch, seat, line.line, step),
        None => Ok(()),
    }
}

/// Does a step on a watch.
fn do_step<M: Monitor>(
    rt: &impl Wait,
    alloc: Global,
    watch: &Watch<M>,
    seat: &mut Seat<M>,
    line: u32,
    step: Step,
) -> Result<(), NoMemory>
    requires seat { IsSeatOf watch.now seat.old }
    requires fits { IsFitStep (M.meaning watch.now.fixed.definition) watch.now.fixed.objects step }
    ensures { OnOk result (DoesStep watch.now line step seat.old seat.new) }
{
    let answer = watch.step(rt, alloc, seat, line, step)?;
    if let Outcome::NoMemory = answer.outcome {
        return Err(NoMemory);
    }
    Ok(())
}
