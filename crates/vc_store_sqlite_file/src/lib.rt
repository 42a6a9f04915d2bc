//! Texts in a table of an SQLite database file.
#![tactic(auto)]

pub mod opening;
pub mod rows;
pub mod texts;

pub use opening::Open;
pub use texts::SavedTexts;

#[cfg(test)]
mod tests;
