//! The cases of scripts.
#![tactic(auto)]

mod answer;
mod catalog;
mod compact;
mod script;

use std::io;

fn main(rt: HostRuntime) -> io::Result<()> {
    testkit::run(&rt, answer::answer)
}
