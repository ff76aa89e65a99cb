//! Where the tool's files come from and where its text goes: folders, which load the files that the
//! command names, and sinks, which take text. The work above is written over the two traits, so that
//! it can be proved and tested over memory, and run over real files and the standard streams.
#![tactic(auto)]

mod folder;
mod host;
mod memory_folder;
mod memory_sink;
mod sink;

pub use folder::{Folder, LoadFault};
pub use host::{HostFault, HostFolder, HostSink};
pub use memory_folder::{MemoryFolder, SureFolder};
pub use memory_sink::{MemorySink, SureSink};
pub use sink::{PutFault, Sink, put_all};
