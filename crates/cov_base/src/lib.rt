//! Stores of files and sinks of bytes, with what they hold or have taken and their counts of
//! faults: over memory for tests, over the host for the program.
#![tactic(auto)]

mod calls;
mod failed;
mod host_sink;
mod host_store;
mod memory_sink;
mod memory_store;
mod pieces;
mod sink;
mod store;
mod sure_sink;
mod sure_store;

pub use failed::Failed;
pub use host_sink::HostSink;
pub use host_store::{HostStore, LONGEST_READ};
pub use items::Memory;
pub use memory_sink::MemorySink;
pub use memory_store::MemoryStore;
pub use pieces::Pieces;
pub use sink::{Sink, write_all};
pub use store::Store;
pub use sure_sink::SureSink;
pub use sure_store::SureStore;
