//! What the words of a request mean at a slot of a plan.
#![tactic(auto)]

pub mod laws;
pub mod naming;
pub mod valuing;

pub use naming::{find_named, find_named_near};
pub use valuing::value_named;
