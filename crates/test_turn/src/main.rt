//! A list of callers' numbers under a turn lock: turns by one thread, by two, by eight that pass notes round, and by
//! pairs that sleep until their turn comes.
#![tactic(auto)]

mod rounds;
mod sleepers;
mod tally;

use rounds::{by_two, heard, ring, times};
use sleepers::slow_pairs;
use std::io;
use std::time::{Duration, Instant};
use tally::Tally;

fn main(rt: HostRuntime) -> io::Result<()> {
    let alloc = rt.alloc();
    print_tally(&rt, "two threads", by_two(&rt, alloc, 1000), 2)?;
    match heard(&rt, alloc) {
        Some(found) => println!(rt; "a note: {found} turn before")?,
        None => println!(rt; "a note: out of memory")?,
    }
    print_tally(&rt, "eight seats", ring(&rt, alloc, 8, 20, 50), 8)?;
    let start = Instant::now(&rt)?;
    match slow_pairs(&rt, alloc, 64) {
        Some(turns) => print!(rt; "sixty-four pairs of sleepers: {turns} turns, ")?,
        None => print!(rt; "sixty-four pairs of sleepers: out of memory, ")?,
    }
    // A seat whose wake-up is lost sleeps for ten seconds.
    if start.elapsed(&rt)? < Duration::from_secs(9) {
        println!(rt; "each woken")
    } else {
        println!(rt; "and one slept on")
    }
}

/// Prints how many turns there were, and how many of them each caller had.
fn print_tally(rt: &impl Print, what: &str, tally: Option<Tally>, callers: u32) -> io::Result<()> {
    let Some(tally) = tally else {
        return println!(rt; "{what}: out of memory");
    };
    print!(rt; "{what}: {} turns, of", tally.turns)?;
    for caller in 0..callers {
        print!(rt; " {}", times(&tally, caller))?;
    }
    println!(rt;)
}
