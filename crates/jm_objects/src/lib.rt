//! Which objects are alive: a bit for each object. An object that died stays dead.
#![tactic(auto)]

mod objects;

pub use objects::Objects;
