//! The rules of a plan: those of constraints at tuples of slots, and those that each variable and each slot has of
//! its own.
#![tactic(auto)]

pub mod adding;
pub mod constraints;
pub mod demands;
pub mod inferred;
pub mod own;

pub use adding::Room;
