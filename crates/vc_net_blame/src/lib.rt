//! Whom to blame where an atom can't stand beside those of a net, and with which premises.
#![tactic(auto)]

pub mod colliding;
pub mod culprits;
pub mod laws;
pub mod odds;
pub mod running_out;

pub use colliding::{blame, collision_bound};
