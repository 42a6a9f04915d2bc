//! Which faults of names and of places the parts of a dependency have where it stands.
#![tactic(auto)]

pub mod columns;
pub mod names;
pub mod places;
