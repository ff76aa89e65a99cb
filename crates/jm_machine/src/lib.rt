//! The rules of a specification: its properties, whatever their logics, each with its handlers, and its creation events
//! and full bindings, as a monitor.
//!
//! `Rules::compile` makes them of the tree of a specification. What they mean stands in `specs`, apart from any table
//! and any chart: the category of a handler holds by the meaning of its property's logic of what is left of a word
//! since a handler last reset that property, and a word hits nothing where it is empty or where creation events exist
//! and its first letter isn't one.
#![tactic(auto)]

mod compile;
mod configuration;
mod cut_rule;
mod engine;
mod formula;
mod goal;
mod grammar_liveness;
mod handlers;
mod handling;
mod laws;
mod names;
mod place;
mod prepared_engine;
mod property;
mod rules;
mod table_liveness;
mod union;

pub use configuration::Configuration;
pub use engine::Engine;
pub use formula::Formula;
pub use laws::{few_properties, one_letter_more, one_reading, without_resets};
pub use place::Place;
pub use property::Property;
pub use rules::Rules;
