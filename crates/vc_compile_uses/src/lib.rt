//! The texts of a plan, and which constraints and other dependencies a plan takes from its model.
#![tactic(auto)]

pub mod texts;
pub mod uses;

pub use texts::{Texts, texts_of};
pub use uses::{active_constraints, net_constraints, used_dependencies};

mod marks;
mod mentions;
