//! Variant tables, read from comma-separated text.
#![tactic(auto)]

mod cells;
mod csv_records;
mod keys;
pub mod table;
mod text_index;

pub use table::{Row, TableFault, VariantTable, read_table};

#[cfg(test)]
mod tests;
