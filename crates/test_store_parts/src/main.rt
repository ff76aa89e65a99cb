//! Cases of what stands below the store: bindings and histories, the table of objects, the marks and the index, each
//! also in rows at random against a plain list, and who is awake.
#![tactic(auto)]

mod answer;
mod awake;
mod bindings;
mod entries;
mod index;
mod marks;
mod objects;
mod plain;
mod random_index;
mod random_marks;
mod table;

use std::io;

fn main(rt: HostRuntime) -> io::Result<()> {
    testkit::run(&rt, answer::answer)
}
