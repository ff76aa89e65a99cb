//! Many recorded scripts at once.
//!
//! `parts` cuts a recording into parts. `replay_part` replays the steps of a part on a core of its own, and
//! `replay_all` those of all parts, split among threads.
#![tactic(auto)]

mod lent;
mod recording;
mod replay;

pub use lent::Lent;
pub use recording::parts;
pub use replay::{Part, replay_all, replay_part};
