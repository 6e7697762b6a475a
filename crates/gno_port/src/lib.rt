//! What the program meets: a source, a sink and a keeper of tables, and forms of each in memory.
#![tactic(auto)]

mod changes;
mod failing;
mod held;
mod keeper;
mod memory_keeper;
mod memory_sink;
mod memory_source;
mod rows;
mod sink;
mod source;
#[cfg(test)]
mod tests;

pub use changes::Changes;
pub use failing::{Called, FailAt};
pub use held::{KeptRow, KeptTable};
pub use keeper::{Batch, Change, KeepFault, Keeper};
pub use memory_keeper::MemoryKeeper;
pub use memory_sink::MemorySink;
pub use memory_source::MemorySource;
pub use sink::{Sink, WriteFault, write_all};
pub use source::{ReadFault, Source, read_all};

/// A device failed.
#[derive(Clone, Copy, Debug, PartialEq, Eq)]
pub struct Failed;
