//! What lies outside of the program: files that are read, and a place that is written to, each of which may fail.
#![tactic(auto)]

pub mod fault;
pub mod file;
pub mod file_shelf;
pub mod keeper;
pub mod memory_keeper;
pub mod memory_shelf;
pub mod memory_sink;
pub mod shelf;
pub mod sink;
pub mod std_sink;

pub use fault::Failed;
pub use file::{FILE_LIMIT, FileFault, read_whole};
pub use file_shelf::FileShelf;
pub use keeper::{KeepFault, Keeper, copied_name};
pub use memory_keeper::{KeptTexts, MemKeeper};
pub use memory_shelf::MemShelf;
pub use memory_sink::MemSink;
pub use shelf::{Found, Shelf};
pub use sink::{Sink, write_all};
pub use std_sink::StdSink;

#[cfg(test)]
mod tests;
