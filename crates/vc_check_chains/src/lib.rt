//! What the separate checker says of a chain file.
#![tactic(auto)]

pub mod telling;
pub mod verdict;
pub mod verifying;

pub use verdict::{Verdict, verdict_text};
pub use verifying::verify_chain;
