//! The monitors that a runtime stores for a specification: which instances of a trace have to be stored, what marks are
//! for, and that events, deaths and passes keep this.
//!
//! A runtime that forgets dead objects stores a monitor for each instance that can still fire, and beside them the
//! marks: seen bindings that can still matter. The definitions stand in `specs`; what is proved of them alone stands in
//! `proofs`. They know no index and no order of work: a store is any one whose stored monitors and marks are such.
#![tactic(auto)]

pub mod laws;
mod stored;

pub use stored::Stored;
