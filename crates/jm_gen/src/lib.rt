//! A large workload over two specifications: four scripts that run beside each other, each over objects of its own.
//!
//! `workload` makes its files. Its time and its memory are linear in their length.
#![tactic(auto)]

mod files;
mod making;
mod script;
mod specification;

pub use files::{GenError, Workload};
pub use making::workload;
