//! Numbers as they are computed: whole counts of millionths of an absolute value of at most 10^36.
#![tactic(auto)]

pub mod numbers;
mod rounding;

pub use numbers::Wide;
