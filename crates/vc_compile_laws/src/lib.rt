//! Laws of the plans that models have: what a plan keeps. Definitions and laws alone.
#![tactic(auto)]

pub mod laws;
