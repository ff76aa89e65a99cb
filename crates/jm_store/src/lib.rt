//! The store: the monitors and marks of one specification, and what an event, in two phases, and a disposal pass do to
//! them.
//!
//! `plan` works an event out and makes all growths; the contents stay as they are. `commit` carries the plan out and
//! takes no memory. The monitors lie in one container (`monitors`). It lends one, or its slots to a walk, which lend
//! one, and either call counts it; an index leads from the bindings to the slots. An event reads the monitors that are
//! compatible with its binding and no others: those above it move, and where the binding is no mark, the others may
//! make new instances (`event`). An event that makes something of one monitor at most needs no plan: `advance_one` does
//! it at once. Nor does one of which there is a list: `advance_listed` does it, unless most of the list rests.
//! `dispose` drops what can't fire any more.
#![tactic(auto)]

mod ending;
mod event;
mod laws;
mod monitors;
mod moves;
mod report;
mod store;
mod waking;
mod walk;

pub use event::{Call, MarkStatus};
pub use laws::death_keeps_store;
pub use moves::{Move, Plan};
pub use store::{Done, Store};
