//! Steps of a log without those that an ending doesn't need, renumbered: chains of reasons.
#![tactic(auto)]

pub mod chains;
pub mod marks;
pub mod numbers;
pub mod steps;

pub use chains::{Trimmed, chain_of, trim, trim_with};
