//! The steps of one turn: the seat draws a ticket, waits until it is served, acts on the value, and
//! passes the turn on.
ghost use Rattle.std.specs.Prelude.{◌≡◌, ℕ, [], ◌∷◌, Some};
ghost use Rattle.jm_turn.specs.Steps.{TurnComes};
ghost use Rattle.jm_turn.specs.TableSeats.{HasActed, HasDrawn, HasPassedOn, HasRun, HoldsValue, IsIdle, IsSameSeat, IsShaped, IsWaiting, lock_over};

use crate::kept::{Act, Kept};
use crate::rule::{SERVING, SharedTable, TICKET, TableSeat, VALUE};
use crate::steps::{Draw, Look, PassOn};
use std::hint;
use std::sync::Wait;
use std::sync::atomic::{AtomicU64, Ordering};
use std::time::Duration;

// How many looks a seat with a ticket has before it sleeps.
const LOOKS: u32 = 1000;

// For how many seconds it sleeps at most.
const LONGEST_SLEEP: u64 = 10;

// A sleep on a word compares the word modulo this number.
const SLEEP_MODULUS: u64 = 1 << 32;

// Draws a ticket: the word has the next one, modulo 2^64.
pub fn draw<V: Kept>(table: &SharedTable<V>, place: &mut TableSeat<V>) -> u64
    requires shape { IsShaped table.now.table_id }
    requires idle { IsIdle (lock_over V.fixed_part table.now) place.old }
    ensures unchanged { IsSameSeat place.old place.new }
    ensures ticket { HasDrawn result place.old.me place.new.me }
{
    table.fetch_add::<Draw>(place, TICKET, 1)
}

// Looks until the ticket is served. After a number of looks it sleeps between them, and is counted among the sleepers
// until its turn has come. No other loop of the lock may wait without an end.
pub fn await_turn<V: Kept, R: Wait>(
    rt: &R,
    table: &SharedTable<V>,
    sleepers: &AtomicU64,
    place: &mut TableSeat<V>,
    ticket: u64,
)
    requires shape { IsShaped table.now.table_id }
    requires waiting { IsWaiting (lock_over V.fixed_part table.now) ticket place.old }
    ensures unchanged { IsSameSeat place.old place.new }
    ensures turn { TurnComes V.entries V.caller_of V.fixed_part place.old.me place.new.me }
{
    let mut looks = LOOKS;
    let mut is_counted = false;
    for _ in rt.forever() {
        let served = table.load::<Look>(place, SERVING);
        if served == ticket {
            break;
        }
        if looks > 0 {
            looks -= 1;
            hint::spin_loop();
        } else if !is_counted {
            sleepers.fetch_add(1, Ordering::SeqCst);
            is_counted = true;
        } else {
            let longest = Duration::from_secs(LONGEST_SLEEP);
            table.park_timeout(rt, SERVING, (served % SLEEP_MODULUS) as u32, longest);
        }
    }
    if is_counted {
        sleepers.fetch_sub(1, Ordering::SeqCst);
    }
}

// Takes the value out of the slot, runs the act on it, and gives it back.
pub fn run_act<V: Kept + Drop, A: Act<V>>(
    table: &SharedTable<V>,
    place: &mut TableSeat<V>,
    act: A,
) -> A::Answer
    requires shape { IsShaped table.now.table_id }
    requires seat { place.old.table_id ≡ table.now.table_id }
    requires holder { (y : V) × HoldsValue place.old.me y × A.suits act (V.fixed_part y) }
    ensures unchanged { IsSameSeat place.old place.new }
    ensures run { HasRun V.entries V.caller_of V.fixed_part (A.number act) (A.relates act) result
        place.old.me place.new.me }
{
    let Some(mut value) = table.exchange(place, VALUE, None) else {
        unreachable!()
    };
    let answer = act.run(&mut value);
    match table.exchange(place, VALUE, Some(value)) {
        None => {}
        Some(_) => unreachable!(),
    }
    answer
}

// Passes the turn on to the next ticket.
pub fn pass_on<V: Kept>(table: &SharedTable<V>, place: &mut TableSeat<V>)
    requires shape { IsShaped table.now.table_id }
    requires acted { HasActed V.entries V.caller_of V.fixed_part (lock_over V.fixed_part table.now) place.old }
    ensures unchanged { IsSameSeat place.old place.new }
    ensures passed { HasPassedOn V.entries place.old.me place.new.me }
{
    table.fetch_add::<PassOn>(place, SERVING, 1);
}

// Wakes the seats that sleep on the serving number, if there are any.
pub fn wake_sleepers<V: Kept>(table: &SharedTable<V>, sleepers: &AtomicU64)
    requires shape { IsShaped table.now.table_id }
{
    if sleepers.load(Ordering::SeqCst) > 0 {
        table.wake_all(SERVING);
    }
}
