//! The families of models that are made from numbers, each as the text that spells it.
#![tactic(auto)]

pub mod numbers;
pub mod writing;

pub use numbers::value_count;
pub use writing::family_text;
