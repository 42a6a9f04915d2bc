//! What the rows of a table leave of a restrictable variable's grains, and why rows aren't possible.
#![tactic(auto)]

mod calls;
pub mod chains;
pub mod grains;
pub mod keys;
pub mod marks;
pub mod misfits;
