//! Cases of one specification's dispatcher: steps of two seats. In `test_dispatch_storm` many seats work on threads of
//! their own.
#![tactic(auto)]

mod answer;
mod rig;
mod steps;

use std::io;

fn main(rt: HostRuntime) -> io::Result<()> {
    testkit::run(&rt, |alloc, case| answer::answer(&rt, alloc, case))
}
