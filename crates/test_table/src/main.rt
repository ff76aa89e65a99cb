//! The cases of tables: circles of numbers, and minimal tables.
#![tactic(auto)]

mod answer;
mod circle;
mod ere;
mod made;
mod rows;
mod shown;
mod table;

use std::io;

fn main(rt: HostRuntime) -> io::Result<()> {
    testkit::run(&rt, answer::answer)
}
