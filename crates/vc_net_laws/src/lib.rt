//! The laws by which a net may settle one atom at a time: what must stand, who is to be asked again, and where it ends.
//! Definitions and laws alone.
#![tactic(auto)]

pub mod laws;
pub mod triggers;

pub use triggers::Trigger;
