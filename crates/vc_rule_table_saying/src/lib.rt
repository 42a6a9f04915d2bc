//! What a table call of a constraint says, put into a yield in one pass over the rows.
#![tactic(auto)]

pub mod agreed;
mod calls;
pub mod sharing;
pub mod skipping;
pub mod tables;

pub use tables::say_table;
