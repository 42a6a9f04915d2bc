//! The messages of HTTP that ask the desk.
#![tactic(auto)]

pub mod judging;
pub mod laws;

pub use judging::{BODY_LIMIT, Judged, judge};

#[cfg(test)]
mod tests;
