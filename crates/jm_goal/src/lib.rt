//! What a table of states is run for: the handlers with their groups of states, the creation letters, and the
//! parameters that a reported instance has to bind.
#![tactic(auto)]

mod goal;

pub use goal::Goal;
