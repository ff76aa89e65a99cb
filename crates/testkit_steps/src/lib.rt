//! Bindings, steps and outcomes as cases write them: `0=7,1=9` or `-`; `event:LETTER:BINDING`, `death:OBJECT` or
//! `pass`; `fired:HANDLER@BINDING;..`, `refused:OBJECT`, `done`, `kept:COUNT` or `no-memory`. Beside them numbers and
//! bindings that look random.
#![tactic(auto)]

mod bindings;
mod draw;
mod outcomes;
mod steps;

pub use bindings::{binding_of, binding_shown, with_pair};
pub use draw::Draw;
pub use outcomes::{entry_shown, or_no_memory, outcome_of, outcome_shown};
pub use steps::{step_of, step_shown};
