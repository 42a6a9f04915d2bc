//! What the lines round a line of a model text say: the scope that those above it make, and what those
//! below it tell.
#![tactic(auto)]

pub mod contents;
pub mod entries;
pub mod look_ahead;
pub mod names;
pub mod naming;
pub mod scope;
pub mod stands;
pub mod tables;
