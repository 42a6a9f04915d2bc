//! Rules, evaluated: what a rule says at a view, with what it follows from; and laws of what is found: it follows from
//! its premises alone, these are few, and the rooms of a yield suffice for it.
#![tactic(auto)]

pub mod evaluating;
pub mod giving;
pub mod laws;
pub mod resting;
pub mod rooms;

pub use evaluating::evaluate;
pub use rooms::new_yield;
