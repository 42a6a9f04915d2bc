//! Compiling: the plan of a model with its tables, or the first fault for which it has none.
#![tactic(auto)]

pub mod compiling;
pub mod sizes;

pub use compiling::compile;
