//! Cases of recordings: where their parts lie, and the histories of parts that are replayed over rules that a text
//! gives.
#![tactic(auto)]

mod answer;
mod script;

use std::io;

fn main(rt: HostRuntime) -> io::Result<()> {
    testkit::run(&rt, |alloc, case| answer::answer(&rt, alloc, case))
}
