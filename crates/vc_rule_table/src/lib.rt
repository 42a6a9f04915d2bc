//! What a table call of a constraint says, with the rows that it follows from, and what is noted of rows.
#![tactic(auto)]

pub mod cells;
pub mod fitting;
pub mod grains;
pub mod laws;
pub mod notes;
pub mod rows;
