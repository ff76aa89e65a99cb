//! The cases of state machines, past-time formulas and regular expressions; and of needed parameters: at which dead
//! parameters an instance can still be hit after a word, and the coenable families of the letters.
#![tactic(auto)]

mod answer;
mod ere;
mod fsm;
mod needs;
mod property;
mod ptltl;

use std::io;

fn main(rt: HostRuntime) -> io::Result<()> {
    testkit::run(&rt, answer::answer)
}
