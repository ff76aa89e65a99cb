//! The making of the seats. Each is split off a seat without a number, and then takes the next one.
ghost use Rattle.std.specs.Prelude.{◌≡◌, ℕ, ◌+◌, ◌-◌, ◌<◌, ◌≤◌, [], IfOk, vec_len};
ghost use Rattle.jm_turn.specs.TableSeats.{IsMaker, IsNews, IsShaped, lock_over};
ghost use Rattle.jm_turn.specs.Seats.{AreNewcomers, newcomer};

use crate::kept::Kept;
use crate::rule::{SEATS, SharedTable, TableSeat};
use crate::seat::Seat;
use crate::steps::{MakeSeat, Number, Tell};
use jm_model::NoMemory;
use std::alloc::Global;

// Numbers a seat: it has the next number. The news of it are for the seat that made it.
fn take_number<V: Kept>(table: &SharedTable<V>, mut place: TableSeat<V>) -> (Seat<V>, TableSeat<V>)
    requires shape { IsShaped table.now.table_id }
    requires maker { IsMaker (lock_over V.fixed_part table.now) 1 place.me.0.next_number place }
    ensures seat { result.0 ≡ newcomer (lock_over V.fixed_part table.now) place.me.0.next_number }
    ensures news { IsNews (lock_over V.fixed_part table.now) (place.me.0.next_number + 1) result.1 }
{
    let number = table.fetch_add::<Number>(&mut place, SEATS, 1);
    let news = table.split_seat::<Tell>(&mut place);
    (Seat::of(number as u32, place), news)
}

// Makes a seat.
fn make_seat<V: Kept>(table: &SharedTable<V>, from: &mut TableSeat<V>) -> Seat<V>
    requires shape { IsShaped table.now.table_id }
    requires maker { IsMaker (lock_over V.fixed_part table.now)
        from.old.me.0.unnumbered from.old.me.0.next_number from.old }
    requires one { 0 < from.old.me.0.unnumbered }
    ensures maker { IsMaker (lock_over V.fixed_part table.now)
        (from.old.me.0.unnumbered - 1) (from.old.me.0.next_number + 1) from.new }
    ensures seat { result ≡ newcomer (lock_over V.fixed_part table.now) from.old.me.0.next_number }
{
    let place = table.split_seat::<MakeSeat>(from);
    let (seat, news) = take_number(table, place);
    table.join_seat::<Tell>(from, news);
    seat
}

// Makes all seats. The seat that makes the others is the last.
pub fn make_seats<V: Kept>(
    alloc: Global,
    table: &SharedTable<V>,
    mut first: TableSeat<V>,
    seats: u32,
) -> Result<Vec<Seat<V>>, NoMemory>
    requires shape { IsShaped table.now.table_id }
    requires maker { IsMaker (lock_over V.fixed_part table.now) seats 0 first }
    requires one { 1 ≤ seats }
    ensures len { IfOk result (λ all. vec_len all ≡ seats) }
    ensures seats { IfOk result (λ all. AreNewcomers (lock_over V.fixed_part table.now) all.items) }
{
    let mut all = Vec::with_capacity(alloc, seats as usize)?;
    for made in 0..seats - 1 {
        all.push_reserved(make_seat(table, &mut first));
    }
    let (seat, _news) = take_number(table, first);
    all.push_reserved(seat);
    Ok(all)
}
