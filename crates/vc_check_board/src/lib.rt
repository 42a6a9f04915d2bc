//! A set of atoms on a board, on which each is found by what it is of, and whether the set is clear.
#![tactic(auto)]

pub mod board;
pub mod clear;
pub mod values;

pub use board::Board;
pub use clear::is_clear;
