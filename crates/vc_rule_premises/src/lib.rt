//! From which atoms of a view a rule concludes.
#![tactic(auto)]

pub mod acting;
pub mod citing;
pub mod laws;

pub use acting::cite_if_it_acts;
pub use citing::{cite_deciding, cite_term, cite_value};
