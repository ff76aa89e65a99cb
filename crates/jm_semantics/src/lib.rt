//! The definitions of slices, instances, answers, cuts and legal histories, which stand in `specs/`, and
//! what is proved of them alone. There is no code here: each function has an empty body, and its contract is a
//! law or a worked example.
#![tactic(auto)]

pub mod examples;
pub mod laws;
