//! What the seats of a caller tell, and what they hear.
ghost use Rattle.std.specs.Prelude.{◌≡◌, ℕ, All, IfOk, OnOk, Some, length, map, slice_get, vec_len};
ghost use Rattle.jm_turn.specs.Seats.{IsNoteOf, IsSeatOf, note_of};
ghost use Rattle.jm_runner.specs.Notes.{HearBelow, Hears, KnowAbove};
ghost use Rattle.jm_runner.specs.Work.{AreSeatsOf};

use crate::parcel::{Naming, Parcel};
use jm_dispatch::{Note, Seat, Watch};
use jm_model::{Monitor, NoMemory};
use std::alloc::Global;

/// So many parcels under a name, each with a note of each seat.
pub(crate) fn parcels<M: Monitor, J: Naming<M::Definition>>(
    alloc: Global,
    watches: &[Watch<M>],
    seats: &mut Vec<Seat<M>>,
    name: u32,
    count: usize,
) -> Result<Vec<Parcel<M, J>>, NoMemory>
    requires watches { J.watches ≡ watches.now }
    requires seats { AreSeatsOf watches.now seats.old.items }
    requires know { KnowAbove J.scripts J.cuts name seats.old.items }
    ensures count { IfOk result (λ parcels. vec_len parcels ≡ count) }
    ensures named { IfOk result (λ parcels. All (λ p. p ≡ name) parcels.items) }
    ensures unchanged { OnOk result (seats.new.items ≡ seats.old.items) }
{
    let mut parcels = Vec::new(alloc);
    for _n in 0..count {
        let notes = notes_of(alloc, watches, seats)?;
        parcels.push(Parcel::new(name, notes))?;
    }
    Ok(parcels)
}

/// A note of what each seat has seen.
fn notes_of<M: Monitor>(
    alloc: Global,
    watches: &[Watch<M>],
    seats: &mut Vec<Seat<M>>,
) -> Result<Vec<Note<M>>, NoMemory>
    requires { AreSeatsOf watches.now seats.old.items }
    ensures notes { IfOk result (λ notes. notes.items ≡ map note_of seats.old.items) }
    ensures unchanged { OnOk result (seats.new.items ≡ seats.old.items) }
{
    let mut notes = Vec::new(alloc);
    for s in 0..watches.len() {
        notes.push(watches[s].note(&mut seats[s]))?;
    }
    Ok(notes)
}

/// Each seat hears the note at its place.
pub(crate) fn hear_all<M: Monitor>(
    watches: &[Watch<M>],
    seats: &mut Vec<Seat<M>>,
    notes: Vec<Note<M>>,
)
    requires seats { AreSeatsOf watches.now seats.old.items }
    requires count { vec_len notes ≡ length watches.now }
    requires notes { (s : ℕ) (watch : _) (note : _) → slice_get watches.now s ≡ Some watch
        → slice_get notes.items s ≡ Some note → IsNoteOf watch note }
    ensures { HearBelow (vec_len notes) notes.items seats.old.items seats.new.items }
{
    let mut s = 0;
    for note in notes {
        hear(&watches[s], &mut seats[s], note);
        s += 1;
    }
}

/// A seat hears a note.
fn hear<M: Monitor>(watch: &Watch<M>, seat: &mut Seat<M>, note: Note<M>)
    requires seat { IsSeatOf watch.now seat.old }
    requires note { IsNoteOf watch.now note }
    ensures { Hears note seat.old seat.new }
{
    watch.hear(seat, note);
}
