//! How many cells a plan's places need, and whether all of them are too many.
#![tactic(auto)]

pub mod bounds;
pub mod capping;
pub mod keeping;
pub mod kinds;
pub mod meeting;
pub mod raising;
pub mod restrictions;
pub mod sizes;
pub mod tables;

pub use bounds::{Bounds, Counted, bounds_of};
