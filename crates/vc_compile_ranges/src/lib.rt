//! Laws of the plans of models whose dependencies have no fault: all that they name is there. Definitions and laws
//! alone.
#![tactic(auto)]

pub mod laws;
