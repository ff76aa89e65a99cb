//! The end: all seats are joined into one, which then knows all numbers, and the value comes out.
ghost use Rattle.std.specs.Prelude.{◌≡◌, ◌<◌, ℕ, false, All, Any, length, vec_len};
ghost use Rattle.jm_turn.specs.Lists.{times};
ghost use Rattle.jm_turn.specs.Views.{given_part, numbers_in};
ghost use Rattle.jm_turn.specs.TableSeats.{IsRecorded, IsShaped, IsValueOf, lock_over};
ghost use Rattle.jm_turn.specs.Seats.{IsSeatOf};

use crate::kept::Kept;
use crate::rule::{SharedTable, TableSeat, TurnTable, VALUE};
use crate::seat::Seat;
use crate::steps::JoinIn;

// Joins all seats into one, from the last to the first.
pub fn join_all<V: Kept>(table: &SharedTable<V>, mut seats: Vec<Seat<V>>) -> TableSeat<V>
    requires shape { IsShaped table.now.table_id }
    requires some { 0 < vec_len seats }
    requires each { All (λ s. IsSeatOf (lock_over V.fixed_part table.now) s) seats.items }
    ensures place { (result.table_id ≡ table.now.table_id) × (result.me.0.holder ≡ false) }
    ensures count { length (numbers_in result.me.0) ≡ vec_len seats }
    ensures recorded { All (λ s. IsRecorded result.me.0 s.number s.seen) seats.items }
    ensures known { (n : ℕ) → 0 < times n (numbers_in result.me.0) → Any (λ s. s.number ≡ n) seats.items }
{
    let Some(first) = seats.pop() else {
        unreachable!()
    };
    let mut all = first.into_place();
    while let Some(seat) = seats.pop() {
        table.join_seat::<JoinIn>(&mut all, seat.into_place());
    }
    all
}

// Takes the value out, once one seat knows all numbers that were given.
pub fn take_value<V: Kept + Drop>(table: TurnTable<V>, all: TableSeat<V>) -> V
    requires shape { IsShaped table.shared.table_id }
    requires place { (all.table_id ≡ table.shared.table_id) × (all.me.0.holder ≡ false) }
    requires count { length (numbers_in all.me.0) ≡ table.shared.key.seats }
    ensures { IsValueOf V.entries V.caller_of V.fixed_part (given_part V.fixed_part table.shared.key)
        all.me.0 result }
{
    let mut closed = table.close_with(all);
    let value = closed.take(VALUE);
    closed.free();
    value.unwrap()
}
