//! What a method, a path and a body ask of the desk.
#![tactic(auto)]

pub mod asked;
pub mod laws;
pub mod targets;

pub use asked::{read_request, verb_for};
pub use targets::{Target, find_target};

#[cfg(test)]
mod tests;
