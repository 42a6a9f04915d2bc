//! Grains that are cut at many numbers.
#![tactic(auto)]

pub mod cut;
pub mod grains;

pub use grains::CutGrains;
