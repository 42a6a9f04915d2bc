//! What a plan shows beside its rules: preconditions, requirements, the lines of bills and the operations of routings.
#![tactic(auto)]

pub mod choices;
pub mod guards;
pub mod items;
pub mod requirements;

pub use guards::push_guards;
pub use items::{push_lines, push_operations};
pub use requirements::push_requirements;
