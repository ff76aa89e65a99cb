//! The cases of printed histories, and of what specifications declare and need.
#![tactic(auto)]

mod answer;
mod print;
mod rules;
mod shop;

use std::io;

fn main(rt: HostRuntime) -> io::Result<()> {
    testkit::run(&rt, answer::answer)
}
