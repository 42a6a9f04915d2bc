//! The rows of `show`: what is told of each characteristic of an instance, and how it is printed.
#![tactic(auto)]

pub mod finding;
pub mod grains;
pub mod joining;
pub mod laws;
pub mod rows;
pub mod texts;

pub use rows::{Row, rows_of};
pub use texts::{put_instance, put_name, put_row, put_value};
