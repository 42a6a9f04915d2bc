//! The command `verify`: what the separate checker says of a chain file in a model.
#![tactic(auto)]

pub mod claims;
pub mod telling;
pub mod verifying;

pub use verifying::verify;
