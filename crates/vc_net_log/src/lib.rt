//! What a net has concluded: each step with its premises, in cells of the conclusion's place.
#![tactic(auto)]

pub mod cells;
pub mod coming;
pub mod counting;
pub mod keeping;
pub mod laws;
pub mod log;
pub mod steps;

pub use log::Log;
