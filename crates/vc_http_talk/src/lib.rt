//! The messages of one connection, answered one after another.
#![tactic(auto)]

pub mod course;
pub mod laws;
pub mod talking;

pub use talking::talk;

#[cfg(test)]
mod tests;
