//! The truth of conditions and the values of terms, at what a view says.
#![tactic(auto)]

pub mod conditions;
pub mod numbers;
pub mod plan_terms;

pub use plan_terms::{number, term_value, truth};
