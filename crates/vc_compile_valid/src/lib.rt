//! Laws of the plan of any model, whatever spells it: what follows from how a plan is made. Definitions and laws alone.
#![tactic(auto)]

pub mod laws;
