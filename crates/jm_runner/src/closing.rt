//! The end: the seats of each watch are gathered, and its core comes out.
ghost use Rattle.std.specs.Prelude.{◌≡◌, ◌<◌, ℕ, IfOk, Some, slice_get, vec_len};
ghost use Rattle.jm_runner.specs.Hands.{AreSeatsOfOne, IsClosed};

use jm_core::Prop;
use jm_dispatch::{Seat, Watch};
use jm_model::{Monitor, NoMemory};
use std::alloc::Global;
use std::mem;

/// Closes each watch with the seats at its place.
pub(crate) fn close_all<M: Monitor>(
    alloc: Global,
    watches: Vec<Watch<M>>,
    mut seats: Vec<Vec<Seat<M>>>,
) -> Result<Vec<Prop<M>>, NoMemory>
    requires count { vec_len seats ≡ vec_len watches }
    requires seats { (s : ℕ) (watch : _) (all : _) → slice_get watches.items s ≡ Some watch
        → slice_get seats.items s ≡ Some all → AreSeatsOfOne watch all.items }
    ensures count { IfOk result (λ props. vec_len props ≡ vec_len watches) }
    ensures closed { IfOk result (λ props. (s : ℕ) (watch : _) (all : _) (prop : _)
        → slice_get watches.items s ≡ Some watch → slice_get seats.items s ≡ Some all
        → slice_get props.items s ≡ Some prop → IsClosed (M.meaning watch.fixed.definition) watch all.items prop) }
{
    let mut props = Vec::new(alloc);
    let mut s = 0;
    for watch in watches {
        let all = take_row(alloc, &mut seats, s);
        props.push(close(watch, all))?;
        s += 1;
    }
    Ok(props)
}

/// The core of a watch.
fn close<M: Monitor>(watch: Watch<M>, seats: Vec<Seat<M>>) -> Prop<M>
    requires { AreSeatsOfOne watch seats.items }
    ensures { IsClosed (M.meaning watch.fixed.definition) watch seats.items result }
{
    watch.close(seats)
}

/// Takes a row out, and leaves an empty one.
fn take_row<T: Drop>(alloc: Global, rows: &mut Vec<Vec<T>>, s: usize) -> Vec<T>
    requires { s < vec_len rows.old }
    ensures row { slice_get rows.old.items s ≡ Some result }
    ensures count { vec_len rows.new ≡ vec_len rows.old }
    ensures others { (k : ℕ) → s < k → slice_get rows.new.items k ≡ slice_get rows.old.items k }
{
    mem::replace(&mut rows[s], Vec::new(alloc))
}
