//! The form in which sessions are saved, as JSON: how it is written and how it is read.
#![tactic(auto)]

pub mod laws;
pub mod shapes;
pub mod writing;
