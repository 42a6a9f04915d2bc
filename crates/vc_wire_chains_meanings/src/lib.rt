//! What the names and numbers of a chain file's lines mean in a plan.
#![tactic(auto)]

pub mod laws;
pub mod meaning;
