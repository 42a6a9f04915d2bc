//! That a plan and its faults hang on what is seen of a model alone, not on where the nodes of its trees stand in
//! memory.
#![tactic(auto)]

pub mod laws;
