//! Cases of audits, with the specifications and scripts that they are of and the text that is checked.
#![tactic(auto)]

mod answer;
mod verdict;

use std::io;

fn main(rt: HostRuntime) -> io::Result<()> {
    testkit::run(&rt, answer::answer)
}
