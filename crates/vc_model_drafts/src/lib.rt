//! The model that the lines of a text describe, gathered from the last line to the first.
#![tactic(auto)]

pub mod drafts;
mod stack;

pub use drafts::{Draft, draft_lines};
