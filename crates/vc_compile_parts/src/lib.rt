//! The parts of a plan: what has conditions and terms, numbered in turn, and what is taken over from model and tables.
#![tactic(auto)]

pub mod numbered;
pub mod ruled;
pub mod shown;
pub mod taken;

pub use numbered::{Numbered, numbered_of};
pub use taken::{Taken, taken_of};
