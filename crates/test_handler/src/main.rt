//! Cases of handlers: what a block prints for an instance at a place.
#![tactic(auto)]

mod answer;
mod handler;
mod scene;

use std::io;

fn main(rt: HostRuntime) -> io::Result<()> {
    testkit::run(&rt, answer::answer)
}
