//! The cases of frames of specifications, and of what is read before a frame: tokens, places among them, and tables of
//! names and events.
#![tactic(auto)]

mod answer;
mod events;
mod spec;
mod text;

use std::io;

fn main(rt: HostRuntime) -> io::Result<()> {
    testkit::run(&rt, answer::answer)
}
