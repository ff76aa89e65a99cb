//! The cases of the core over tables of states.
#![tactic(auto)]

mod answer;
mod core_steps;
mod rig;

use std::io;

fn main(rt: HostRuntime) -> io::Result<()> {
    testkit::run(&rt, answer::answer)
}
