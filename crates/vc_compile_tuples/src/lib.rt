//! The tuples of slots that a constraint speaks of.
#![tactic(auto)]

pub mod choices;
pub mod parts;
pub mod tuples;

pub use tuples::tuples_of;
