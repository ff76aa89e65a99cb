//! What a post hands to a wait.
ghost use Rattle.std.specs.Prelude.{◌≡◌};
ghost use Rattle.jm_runner.specs.Notes.{AreNotesUnder};

use jm_dispatch::Note;
use jm_model::Monitor;
use jm_sync::Posted;
use std::marker::{Brand, Model, PhantomData};

/// What a run is, for proofs alone: its scripts, what they ask for, and its watches. One call in a run picks it, so
/// that all parcels of a run's board are of that run.
pub(crate) trait Naming<D> {
    ghost use Rattle.std.specs.Prelude.{List};
    ghost use Rattle.jm_turn.specs.Seats.{LockModel};
    ghost use Rattle.jm_script.specs.declared.script.ScriptLine.{ScriptLine};
    ghost use Rattle.jm_sync.specs.declared.line.SyncLine.{SyncLine};
    ghost use Rattle.jm_dispatch.specs.declared.watched.Fixed.{Fixed};

    ghost scripts: { List (List ScriptLine) };

    ghost cuts: { List (List SyncLine) };

    ghost watches: { List (LockModel (Fixed D)) };
}

impl<D> Naming<D> for Brand {
    ghost use Rattle.std.specs.Prelude.{[]};

    ghost scripts = { [] };

    ghost cuts = { [] };

    ghost watches = { [] };
}

/// One note of each watch, in order, under the name that was posted. Each has seen all that the script of the post has
/// above it. Contracts see a parcel as its name.
#[derive(Drop)]
pub(crate) struct Parcel<M: Monitor, J: Naming<M::Definition>> {
    name: u32,
    notes: Vec<Note<M>>,
    of: PhantomData<J>,
}

impl<M: Monitor, J: Naming<M::Definition>> Model for Parcel<M, J> {
    ghost use Rattle.std.specs.Prelude.{ℕ};
    ghost use Rattle.jm_runner.specs.Notes.{AreNotesUnder};

    ghost Value = { ℕ };

    ghost view = { λ p. p.name };

    ghost invariant = { λ p. AreNotesUnder J.scripts J.cuts J.watches p.name p.notes.items };
}

impl<M: Monitor, J: Naming<M::Definition>> Posted for Parcel<M, J> {
    ghost number = { λ p. p };
}

impl<M: Monitor, J: Naming<M::Definition>> Parcel<M, J> {
    pub(crate) fn new(name: u32, notes: Vec<Note<M>>) -> Parcel<M, J>
        requires { AreNotesUnder J.scripts J.cuts J.watches name notes.items }
        ensures { result ≡ name }
    {
        Parcel {
            name,
            notes,
            of: PhantomData,
        }
    }

    pub(crate) fn into_notes(self) -> Vec<Note<M>>
        ensures { AreNotesUnder J.scripts J.cuts J.watches self result.items }
    {
        let Parcel {
            name: _,
            notes,
            of: _,
        } = self;
        notes
    }
}
