//! Laws of the trees that texts are read as. Definitions and laws alone.
#![tactic(auto)]

pub mod laws;
