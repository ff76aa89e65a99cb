//! What the workers of a run tell each other.
ghost use Rattle.std.specs.Prelude.{◌≡◌, ◌<◌, ◌≤◌, ◌-◌, ◌^◌, All, IfOk, OnOk, length, vec_len};
ghost use Rattle.jm_sync.specs.Checks.{sync_of};
ghost use Rattle.jm_sync.specs.declared.line.SyncKind.TheVariants.{Post};
ghost use Rattle.jm_runner.specs.Notes.{HaveNamesBelow, KnowAbove, PassesLine, SeeMore};
ghost use Rattle.jm_runner.specs.Work.{AreSeatsOf};

use crate::hearing::{hear_all, parcels};
use crate::parcel::{Naming, Parcel};
use jm_dispatch::{Seat, Watch};
use jm_model::{Monitor, NoMemory};
use jm_sync::{Board, Cut, GaveUp, SyncKind, SyncLine};
use std::alloc::Global;
use std::marker::Model;
use std::sync::Wait;

/// A board for all names of a run, and how many lines wait for each. Contracts see how many names there are.
#[derive(Drop)]
pub(crate) struct Notices<M: Monitor, J: Naming<M::Definition>> {
    board: Board<Parcel<M, J>, GaveUp>,
    waits: Vec<usize>,
}

impl<M: Monitor, J: Naming<M::Definition>> Model for Notices<M, J> {
    ghost use Rattle.std.specs.Prelude.{◌≡◌, ℕ, length};

    ghost Value = { ℕ };

    ghost view = { λ n. n.board };

    ghost invariant = { λ n. length n.waits.items ≡ n.board };
}

impl<M: Monitor, J: Naming<M::Definition>> Notices<M, J> {
    /// A board for all names that the scripts have.
    pub(crate) fn new(alloc: Global, cuts: &[Cut]) -> Result<Notices<M, J>, NoMemory>
        requires { HaveNamesBelow (2 ^ 32 - 1) (sync_of cuts.now) }
        ensures { IfOk result (λ notices. HaveNamesBelow notices (sync_of cuts.now)) }
    {
        let names = count_names(cuts);
        let waits = count_waits(alloc, cuts, names)?;
        let board = Board::new(alloc, names)?;
        Ok(Notices { board, waits })
    }

    /// Passes a line that asks for order. A post puts a parcel on the board for each line that waits for its name. A
    /// wait takes one, and hears its notes; where the name was given up, the answer is NoMemory.
    pub(crate) fn pass(
        &self,
        rt: &impl Wait,
        alloc: Global,
        watches: &[Watch<M>],
        seats: &mut Vec<Seat<M>>,
        line: SyncLine,
    ) -> Result<(), NoMemory>
        requires name { line.name < self.now }
        requires watches { J.watches ≡ watches.now }
        requires seats { AreSeatsOf watches.now seats.old.items }
        requires know { line.kind ≡ Post → KnowAbove J.scripts J.cuts line.name seats.old.items }
        ensures { OnOk result (PassesLine J.scripts J.cuts line.kind line.name seats.old.items seats.new.items) }
    {
        match line.kind {
            SyncKind::Post => self.post(rt, alloc, watches, seats, line.name),
            SyncKind::Wait => self.wait(rt, watches, seats, line.name),
        }
    }

    /// Posts a name.
    fn post(
        &self,
        rt: &impl Wait,
        alloc: Global,
        watches: &[Watch<M>],
        seats: &mut Vec<Seat<M>>,
        name: u32,
    ) -> Result<(), NoMemory>
        requires name { name < self.now }
        requires watches { J.watches ≡ watches.now }
        requires seats { AreSeatsOf watches.now seats.old.items }
        requires know { KnowAbove J.scripts J.cuts name seats.old.items }
        ensures { OnOk result (seats.new.items ≡ seats.old.items) }
    {
        let parcels = parcels(alloc, watches, seats, name, self.waits[name as usize])?;
        self.board.post(rt, name, parcels);
        Ok(())
    }

    /// Waits for a name.
    fn wait(
        &self,
        rt: &impl Wait,
        watches: &[Watch<M>],
        seats: &mut Vec<Seat<M>>,
        name: u32,
    ) -> Result<(), NoMemory>
        requires name { name < self.now }
        requires watches { J.watches ≡ watches.now }
        requires seats { AreSeatsOf watches.now seats.old.items }
        ensures more { OnOk result (SeeMore seats.old.items seats.new.items) }
        ensures told { OnOk result (KnowAbove J.scripts J.cuts name seats.new.items) }
    {
        match self.board.take(rt, name) {
            Ok(parcel) => {
                hear_all(watches, seats, parcel.into_notes());
                Ok(())
            }
            Err(GaveUp { name: _ }) => Err(NoMemory),
        }
    }

    /// Gives up all names that the scripts post.
    pub(crate) fn give_up_all(&self, rt: &impl Wait, cuts: &[Cut])
        requires { HaveNamesBelow self.now (sync_of cuts.now) }
    {
        for cut in cuts {
            self.give_up(rt, &cut.lines);
        }
    }

    /// Gives up the names that these lines post.
    pub(crate) fn give_up(&self, rt: &impl Wait, lines: &[SyncLine])
        requires { All (λ l. l.name < self.now) lines.now }
    {
        for line in lines {
            let SyncKind::Post = line.kind else {
                continue;
            };
            self.board
                .give_up(rt, line.name, GaveUp { name: line.name });
        }
    }
}

/// A number above all names.
fn count_names(cuts: &[Cut]) -> u32
    requires { HaveNamesBelow (2 ^ 32 - 1) (sync_of cuts.now) }
    ensures { HaveNamesBelow result (sync_of cuts.now) }
{
    let mut names = 0;
    for cut in cuts {
        names = names_within(names, &cut.lines);
    }
    names
}

/// A number above all names of these lines too.
fn names_within(names: u32, lines: &[SyncLine]) -> u32
    requires { All (λ l. l.name < 2 ^ 32 - 1) lines.now }
    ensures grown { names ≤ result }
    ensures above { All (λ l. l.name < result) lines.now }
{
    let mut most = names;
    for line in lines {
        most = most.max(line.name + 1);
    }
    most
}

/// How many lines wait for each name.
fn count_waits(alloc: Global, cuts: &[Cut], names: u32) -> Result<Vec<usize>, NoMemory>
    requires { HaveNamesBelow names (sync_of cuts.now) }
    ensures { IfOk result (λ waits. vec_len waits ≡ names) }
{
    let mut waits = vec![in alloc; 0; names as usize]?;
    for cut in cuts {
        add_waits(&cut.lines, &mut waits);
    }
    Ok(waits)
}

/// Adds how many of these lines wait for each name.
fn add_waits(lines: &[SyncLine], waits: &mut Vec<usize>)
    requires { All (λ l. l.name < vec_len waits.old) lines.now }
    ensures { vec_len waits.new ≡ vec_len waits.old }
{
    for line in lines {
        let SyncKind::Wait = line.kind else {
            continue;
        };
        let name = line.name as usize;
        waits[name] = waits[name].saturating_add(1);
    }
}
