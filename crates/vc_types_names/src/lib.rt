//! A model with an index of its names, so that a name is found without going over a list.
#![tactic(auto)]

pub mod first_named;
pub mod members;
pub mod named;
pub mod names;

pub use first_named::FirstNamed;
pub use names::Names;
