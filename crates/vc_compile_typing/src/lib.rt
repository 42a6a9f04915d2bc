//! The typing of all that a plan takes from its model, each at each of its places.
#![tactic(auto)]

pub mod finding;
pub mod members;
pub mod skipping;
pub mod slots;
pub mod uses;

pub use finding::Found;
pub use slots::type_fault;
