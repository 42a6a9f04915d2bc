//! The conditions and terms of a plan, and numbers for them.
#![tactic(auto)]

pub mod numbering;
pub mod trees;

pub use numbering::Numbering;
pub use trees::Trees;
