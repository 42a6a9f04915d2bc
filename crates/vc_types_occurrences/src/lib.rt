//! What stands in a dependency: its conditions, relations, terms, calls of tables and operands.
#![tactic(auto)]

pub mod conditions;
pub mod gathering;
pub mod statements;
pub mod terms;
pub mod uses;

pub use gathering::{Given, Leaves, Parts};
pub use uses::Use;
