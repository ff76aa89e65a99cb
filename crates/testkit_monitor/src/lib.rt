//! A monitor that is a table of states: small rules for the tests of the crates that run monitors, with a refusal of
//! memory at a chosen step.
#![tactic(auto)]

mod table;

pub use table::{Configuration, Table};
