//! The index: pairs of a binding and a slot, found by what they share with a binding.
//!
//! The pairs stand in the order in which they were added. Beside them stand trees, one for each set of bound
//! parameters, that branch by the objects of the pairs. Their keys are weak: once an object is dead, no event can ask
//! for it, and `drop_dead` drops its paths; the pairs stay, and are reached by their other objects and by the list of
//! their tree. Nothing is renumbered when a pair is removed: its entry and what the trees hold of it are passed over
//! when they are read, and go as soon as they are more than half of a list.
#![tactic(auto)]

mod entry;
mod flags;
mod growth;
mod index;
mod key;
mod laws;
mod packed_entry;
mod positions;
mod posting;
mod rows;
mod tree;
mod trees;

pub use entry::NoRoom;
pub use index::Index;
pub use laws::{fits_after_death, live_objects_are_keys};
