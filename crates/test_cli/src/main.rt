//! The cases of command lines.
#![tactic(auto)]

mod answer;

use std::io;

fn main(rt: HostRuntime) -> io::Result<()> {
    testkit::run(&rt, answer::answer)
}
