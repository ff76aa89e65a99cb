//! What a command reads: its specifications and scripts, from the bytes of files to rules that run and steps to do.
//!
//! What a command is to do stands in `specs`, apart from how it is done: `Jobs.antt` says what its words and the
//! contents of its files ask for or which fault is the first, `Inputs.antt` what files say one after the other, and
//! `Causes.antt` why a command ends before its text is written.
//!
//! | Module | What it has |
//! |---|---|
//! | `status` | how a command ends |
//! | `files` | the bytes of a file |
//! | `spec_set`, `specification` | specifications, read one after the other |
//! | `scripts` | scripts, read one after the other |
//! | `inputs` | the specifications and scripts of a command, loaded or made |
//! | `laws` | what holds of all files |
#![tactic(auto)]

mod files;
mod inputs;
mod laws;
mod scripts;
mod spec_set;
mod specification;
mod status;

pub use files::load;
pub use inputs::{Inputs, read_inputs, read_workload};
pub use laws::one_reading;
pub use scripts::{Scripts, Setting, too_long};
pub use spec_set::{Purpose, SpecSet, read_specifications};
pub use specification::{CompiledSpec, SpecHeader};
pub use status::{MOST_BYTES, Status};
