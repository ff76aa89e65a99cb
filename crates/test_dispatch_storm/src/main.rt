//! Storms: many seats of one dispatcher work at once, each on a thread of its own, on objects that they share and that
//! die meanwhile; and notes are passed round among them. Afterwards each entry of the history is compared with what the
//! definitions say of the entries before it, by filtering.
#![tactic(auto)]

mod answer;
mod filter;
mod plan;
mod storm;

use std::io;

fn main(rt: HostRuntime) -> io::Result<()> {
    testkit::run(&rt, |alloc, case| answer::answer(&rt, alloc, case))
}
