//! One specification's core: it takes events, deaths and passes one after another, and records what each was answered.
//!
//! `Prop` is the core. It keeps a history of all steps, and beside it only what can still matter (`Live`): the monitors
//! and marks of a store, from which the instances go that can't fire any more. Its contracts say that this forgets
//! nothing: the history is legal after every step, so each outcome is that of a core which forgets nothing.
#![tactic(auto)]

mod live;
mod prop;

pub use prop::Prop;
