//! What one evaluation of a rule yields: atoms with their premises, or a clash with its premises.
#![tactic(auto)]

pub mod atoms;
pub mod bounded;
pub mod scratch;
pub mod yields;

pub use atoms::{has_atom, same_atom};
pub use bounded::Bounded;
pub use scratch::Scratch;
pub use yields::Yield;
