//! Cases of folders and sinks, in memory and over the system.
#![tactic(auto)]

mod answer;
mod host;
mod port;

use std::io;

fn main(rt: HostRuntime) -> io::Result<()> {
    testkit::run(&rt, |alloc, case| answer::answer(rt, alloc, case))
}
