//! Where values come from: of each variable of a plan the user's value, and what a statement wrote.
#![tactic(auto)]

pub mod sources;

pub use sources::Sources;
