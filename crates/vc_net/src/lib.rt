//! The net of a plan: it settles the plan's rules with given sources, and keeps each conclusion with what it follows
//! from, or what contradicts.
#![tactic(auto)]

pub mod clashes;
pub mod copying;
pub mod laws;
pub mod net;
pub mod settling;

pub use net::Net;
