//! Laws of the plans of models whose dependencies have no fault: at which numbers variables are cut. Definitions and
//! laws alone.
#![tactic(auto)]

pub mod laws;
