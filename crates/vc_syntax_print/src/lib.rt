//! The canonical text of a dependency.
#![tactic(auto)]

pub mod conditions;
pub mod constraints;
pub mod dependencies;
pub mod leaves;
pub mod statements;
pub mod terms;

pub use dependencies::{canonical_text_is_read_again, print_dependency, print_term};
