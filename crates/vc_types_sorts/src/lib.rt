//! Which faults of kind and of range the parts of a dependency have where it stands.
#![tactic(auto)]

pub mod sizes;
pub mod sorts;
