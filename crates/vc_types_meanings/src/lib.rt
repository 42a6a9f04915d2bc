//! What operands mean where a dependency stands.
#![tactic(auto)]

pub mod meanings;
pub mod setting;
pub mod tree;
pub mod variables;

pub use setting::Setting;
pub use tree::{Tree, borrowed};
