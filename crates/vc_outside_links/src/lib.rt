//! Links that clients open: what they send is read, and answers are written to them. And the door at which they come.
#![tactic(auto)]

mod counting;
pub mod door;
pub mod link;
pub mod memory_door;
pub mod memory_link;

pub use door::Door;
pub use link::{Link, send_all};
pub use memory_door::MemDoor;
pub use memory_link::MemLink;

#[cfg(test)]
mod tests;
