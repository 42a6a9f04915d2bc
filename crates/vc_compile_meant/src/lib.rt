//! Laws of the plans of models whose dependencies have no fault: what operands mean. Definitions and laws alone.
#![tactic(auto)]

pub mod laws;
