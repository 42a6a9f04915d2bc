//! Laws of the sorts in plans of models whose dependencies have no fault: texts meet texts, and numbers numbers.
//! Definitions and laws alone.
#![tactic(auto)]

pub mod laws;
