//! Cases of what tables are run for, and of the rules of whole specifications.
#![tactic(auto)]

mod answer;
mod goals;
mod rules;

use std::io;

fn main(rt: HostRuntime) -> io::Result<()> {
    testkit::run(&rt, answer::answer)
}
