//! Whoever gives atoms of a net, rules and sources alike, asked at a view: what it says, and what that follows from.
#![tactic(auto)]

pub mod asking;
pub mod laws;
pub mod naming;
pub mod telling;

pub use asking::{ask, rests_at, tells_nothing};
pub use naming::{culprit_of, origin_of};
