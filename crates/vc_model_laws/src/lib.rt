//! Laws of the models that texts spell: what a model keeps. Definitions and laws alone.
#![tactic(auto)]

pub mod laws;
