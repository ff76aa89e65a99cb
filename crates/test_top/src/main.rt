//! Cases of whole commands, with the files that they read and the text that they write.
#![tactic(auto)]

mod answer;
mod command;
mod shown;

use std::io;

fn main(rt: HostRuntime) -> io::Result<()> {
    testkit::run(&rt, |alloc, case| answer::answer(&rt, alloc, case))
}
