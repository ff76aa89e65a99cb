//! The marks: the bindings that were seen and can still matter, each once.
//!
//! A mark of one parameter is a bit: each object has a byte, with a bit for each parameter. The others stand in one
//! hash set, whose keys tell by themselves which parameters they bind. Beside them stands a list of the sets of
//! parameters that ever were those of a mark: at most one for each letter. So to ask something of all marks below a
//! binding takes one look-up for each of these sets, and no walk over marks.
//!
//! Beside the set it is kept which object watches which mark, one of those that the mark binds. A sweep passes many
//! marks over at once where their objects are alive, and looks at a mark itself only where its object is dead. Of the
//! bytes it clears those of objects that died since the last sweep. Most bindings of the set that are asked for are
//! found by a hint, without a hash.
#![tactic(auto)]

mod bound;
mod dead;
mod hints;
mod marks;
mod singles;
mod sweep;
mod watch;

pub use dead::dead_mask;
pub use marks::Marks;
