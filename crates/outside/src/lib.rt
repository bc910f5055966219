//! What lies outside a run: the source that a script is read from, the sink that a report is written
//! to, and the gate at which a test can hold a thread and that is told how far a run is.
#![tactic(auto)]

mod calls;
mod failed;
mod gate;
mod memory_sink;
mod memory_source;
mod piece;
mod reading;
mod sink;
mod source;
mod standard;
mod writing;

pub use failed::Failed;
pub use gate::{Gate, OpenGate};
pub use memory_sink::MemSink;
pub use memory_source::MemSource;
pub use reading::{ReadAll, read_all};
pub use sink::Sink;
pub use source::Source;
pub use standard::{StdSink, StdSource};
pub use writing::write_all;
