//! What lies where: the slots, variables, sets and texts that a model comes to, with the indexes that find them.
#![tactic(auto)]

pub mod layout;
pub mod numbers;

pub use layout::{Layout, Lists};
pub use numbers::Numbers;
