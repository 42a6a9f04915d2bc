//! Blame: whenever sources contradict each other, a constraint's rule or a statement is to blame, with premises that
//! show it. Definitions and their laws.
#![tactic(auto)]

pub mod laws;
