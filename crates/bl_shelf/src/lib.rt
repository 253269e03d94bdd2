//! Where files come from and where lines go: the traits of the outside, shelves and a sink in
//! memory for tests, the current folder, and standard output.
#![tactic(auto)]

mod folder;
mod memory;
mod memory_sink;
mod meter;
mod named_bytes;
mod opened_file;
mod part_file;
mod shelf;
mod sink;
mod standard_output;
mod steady;

pub use folder::FolderShelf;
pub use memory::MemoryShelf;
pub use memory_sink::MemorySink;
pub use shelf::{Shelf, ShelfFault};
pub use sink::{Sink, SinkFault};
pub use standard_output::StdoutSink;
pub use steady::SteadyShelf;
