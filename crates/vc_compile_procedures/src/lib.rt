//! The procedures of a plan: those of profiles, characteristics and values, at each slot.
#![tactic(auto)]

pub mod actions;
pub mod procedures;
pub mod statements;

pub use procedures::push_procedures;
