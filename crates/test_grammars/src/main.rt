//! Cases of context-free grammars, of their charts, and of rules that may begin anywhere.
#![tactic(auto)]

mod answer;
mod chart;
mod grammar;
mod suffix_ere;
mod suffix_grammar;
mod written;

use std::io;

fn main(rt: HostRuntime) -> io::Result<()> {
    testkit::run(&rt, answer::answer)
}
