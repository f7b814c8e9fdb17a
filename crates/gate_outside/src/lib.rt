//! The outside as traits: a source of bytes, a sink for bytes, a shelf of named files, and a disk with
//! one file, of which a crash may lose what isn't synced.
//!
//! It stands on `text_types` for texts and bytes, and on `fault_causes` for the words on faults.
//! Each trait says what a call does to what the object holds, where the object tells it, and keeps a
//! count of faults: a call answers `Failed` only where that count rose in the call. The layer above
//! takes its input, its output and its files by these traits alone, so whatever it proves holds
//! over any of them. Here stand the forms in memory; those over the system's files and streams stand
//! in the program. Each form in memory has a second one, whose calls with listed numbers fail, and the
//! disk in memory hands out the files that a crash behind any of its changes might have left.
#![tactic(auto)]

mod change;
mod disk;
mod failing;
mod failing_disk;
mod memory_disk;
mod memory_shelf;
mod memory_sink;
mod memory_source;
mod shelf;
mod sink;
mod source;
mod tear;

pub use disk::Disk;
pub use failing::{Failing, FailingShelf, FailingSink, FailingSource};
pub use failing_disk::FailingDisk;
pub use memory_disk::MemoryDisk;
pub use memory_shelf::MemoryShelf;
pub use memory_sink::MemorySink;
pub use memory_source::MemorySource;
pub use shelf::{Shelf, ShelfError};
pub use sink::{Sink, write_all};
pub use source::{Failed, Source};
pub use tear::Tear;
