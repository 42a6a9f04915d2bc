//! What stands in a net: atoms, each with who gave it, in the order in which they came.
#![tactic(auto)]

pub mod laws;
pub mod standing;

pub use standing::{Fact, Standing, zeros};
