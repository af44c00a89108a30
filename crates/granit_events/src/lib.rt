//! Bytes in, event lines out: all that the program does, over any source and any sink.
#![tactic(auto)]

mod answering;
mod counting;
mod ends;
mod filling;
mod input;
mod memory;
mod outside;
mod plain;
mod reading;
mod running;
mod saying;
mod status;
mod testing;
mod writing;

pub use ends::{ByteSource, Failed, Sink};
pub use granit_lines::push_line;
pub use memory::{MemorySink, MemorySource};
pub use outside::{ReadSource, WriteSink};
pub use plain::{PlainSink, PlainSource};
pub use running::{run, run_plain};
pub use status::Status;
