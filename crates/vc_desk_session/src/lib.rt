//! What requests do and ask of one session: edits, how it stands, and chains of reasons.
#![tactic(auto)]

pub mod edits;
pub mod reasons;
pub mod telling;
pub mod words;

pub use edits::{Edit, apply};
pub use reasons::{Question, answer};
pub use telling::{Told, tell};
