//! Cases of runs on several threads: workers that wait for each other, and gates that watch what they are told.
#![tactic(auto)]

mod answer;
mod both;
mod command;
mod counting;
mod meet;
mod meeting;
mod noted;
mod waiting;

use std::io;

fn main(rt: HostRuntime) -> io::Result<()> {
    testkit::run(&rt, |alloc, case| answer::answer(&rt, alloc, case))
}
