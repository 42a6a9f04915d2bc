//! Laws of the plans of models whose dependencies have no fault: look-ups, and how large numbers get. Definitions and
//! laws alone.
#![tactic(auto)]

pub mod laws;
