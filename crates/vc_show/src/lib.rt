//! What a user is told of an evaluation: what is hidden, what must have a value, and how it stands.
#![tactic(auto)]

pub mod asking;
pub mod guarding;
pub mod hiding;
pub mod laws;
pub mod naming;
pub mod sets;
pub mod statuses;

pub use asking::required;
pub use hiding::{hidden, hidden_value};
pub use statuses::status_of;
