//! What the compiler and the runtime speak of together.
//!
//! `Binding` gives objects to parameters; `Step`, `Outcome` and `Entry` are what a history consists of; `Monitor` is
//! the one trait in which the two sides meet, with the meaning that a specification has; `Steps` counts what an event
//! reads; and the faults are what can be wrong with a specification or a script. The definitions that the contracts
//! cite stand in `specs`.
#![tactic(auto)]

mod binding;
mod fault;
mod firings;
mod monitor;
mod step;
mod steps;

pub use binding::Binding;
pub use fault::{Counted, ScriptError, ScriptFault, SpecError, SpecFault};
pub use firings::{Firing, Firings};
pub use monitor::{AT_REST, Monitor, NO_NUMBER};
pub use step::{Entry, Letter, NoMemory, Outcome, Step};
pub use steps::Steps;
