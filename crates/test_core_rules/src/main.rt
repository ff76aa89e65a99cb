//! Cases of the core: events, deaths and passes over rules that a text gives, what they are answered, and what is kept
//! in memory.
#![tactic(auto)]

mod answer;
mod lists;
mod rig;
mod stingy;

use answer::answer;
use std::io;

fn main(rt: HostRuntime) -> io::Result<()> {
    testkit::run(&rt, answer)
}
