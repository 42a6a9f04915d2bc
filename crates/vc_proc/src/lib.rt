//! What the procedures of a stage write.
#![tactic(auto)]

pub mod laws;
pub mod looking_up;
pub mod overlay;
pub mod running;
pub mod stage;
pub mod stages;
pub mod statements;
pub mod summing;
pub mod writing;

pub use overlay::{Overlay, Written};
pub use stages::run_stage;
