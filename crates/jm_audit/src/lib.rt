//! A printed history checked by itself.
//!
//! `audit` says whether runs of some scripts may print a text, or which of its lines no run prints there. It computes
//! each reply from the history so far, by slices and joins, and runs the monitor over each slice.
#![tactic(auto)]

mod account;
mod block;
mod compare;
mod dead;
mod growth;
mod guided;
mod instance;
mod pending;
mod progress;
mod report;
mod sheet;
mod verdict;

pub use guided::audit;
pub use sheet::Sheet;
pub use verdict::Verdict;
