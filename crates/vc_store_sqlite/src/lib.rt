//! A keeper of texts in a database file, or in memory for this run alone.
#![tactic(auto)]

pub mod keeper;

pub use keeper::{FileKeeper, SqlKeeper};

#[cfg(test)]
mod tests;
