//! The cases of what may still follow: which dead parameters cut an instance after each letter of a word, the coenable
//! families, the letters at which an instance rests or ends, and what is told by the numbers of states.
#![tactic(auto)]

mod answer;
mod cuts;
mod families;
mod numbers;

use answer::answer;
use std::io;

fn main(rt: HostRuntime) -> io::Result<()> {
    testkit::run(&rt, answer)
}
