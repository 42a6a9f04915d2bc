//! Readers: which rules touch a slot or a variable, found once from the plan, so that a net asks those alone again.
#![tactic(auto)]

pub mod filing;
pub mod glances;
pub mod halves;
pub mod laws;
pub mod lists;
pub mod readers;
pub mod touched;
pub mod touching;
pub mod triggers;

pub use glances::{Glance, Hint};
pub use readers::Readers;
