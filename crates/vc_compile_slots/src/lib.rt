//! The slots of a model, and the variables and sets of slots.
#![tactic(auto)]

pub mod levels;
pub mod standing;
pub mod variables;

pub use levels::is_too_deep;
pub use standing::{slots_of, standings_of};
pub use variables::{sets_of, vars_of};

mod bills;
