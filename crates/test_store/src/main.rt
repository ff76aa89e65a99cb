//! The store by itself, over tables of states and rules of texts: rows of steps, and runs at random against a slow one.
#![tactic(auto)]

mod answer;
mod both;
mod random;
mod rig;
mod slow;

use std::io;

fn main(rt: HostRuntime) -> io::Result<()> {
    testkit::run(&rt, answer::answer)
}
