//! Where bytes come from and where they go: a source and a sink that count their faults, in memory and over std.
#![tactic(auto)]

mod memory_sink;
mod memory_source;
mod standard;
mod stream;
mod transfer;

pub use memory_sink::MemorySink;
pub use memory_source::MemorySource;
pub use standard::{StdSink, StdSource};
pub use stream::{Failed, Sink, Source};
pub use transfer::{ReadFault, read_up_to, write_all};
