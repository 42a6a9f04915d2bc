//! The plan of a model, as definitions: which slots, variables, rules and procedures a model with
//! its tables comes to, and why a model has none.
#![tactic(auto)]

pub mod fault;
pub mod laws;
pub mod standings;

pub use fault::CompileFault;
pub use standings::Standing;
