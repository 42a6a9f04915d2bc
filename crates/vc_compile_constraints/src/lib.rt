//! The rules of all constraints of a plan, each at all tuples of slots that match it.
#![tactic(auto)]

pub mod constraints;

pub use constraints::push_constraint_rules;
