//! The trees of dependencies, and how terms and conditions are read from tokens.
#![tactic(auto)]

pub mod conditions;
pub mod reading;
pub mod terms;
