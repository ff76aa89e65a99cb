//! Many scripts over many specifications.
//!
//! Script k is caller k: a worker does its lines in order, on seat k of every specification's dispatcher. So each
//! specification gets one history, in which the projections of all scripts are interleaved.
//!
//! | Module | What it has |
//! |---|---|
//! | `gate` | what is told of each line before and after it is done |
//! | `parcel` | what a post hands to a wait: one note of each specification |
//! | `hearing` | the notes of a caller's seats are made, and heard |
//! | `notices` | the board of a run: names are posted and waited for there |
//! | `worker` | what one caller does |
//! | `workers` | the workers, each on a thread of its own |
//! | `closing` | the cores come out |
//! | `table` | rows of seats into columns |
//! | `run` | the run: seats are dealt to workers, and gathered once all are done |
#![tactic(auto)]

mod closing;
mod gate;
mod hearing;
mod notices;
mod parcel;
mod run;
mod table;
mod worker;
mod workers;

pub use gate::{FreeGate, Gate};
pub use run::{Running, run_queues, run_scripts, run_with_notes};
