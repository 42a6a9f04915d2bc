//! The heads of messages over HTTP: where they end, how they are read, and by which status they are refused.
#![tactic(auto)]

pub mod ends;
pub mod fields;
pub mod heads;
pub mod reading;

pub use heads::{HEAD_LIMIT, Head, HeadJudged, judge_head};

#[cfg(test)]
mod tests;
