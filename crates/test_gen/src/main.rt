//! The cases of workloads.
#![tactic(auto)]

mod answer;

use std::io;

fn main(rt: HostRuntime) -> io::Result<()> {
    testkit::run(&rt, answer::answer)
}
