//! Places: each atom that may stand in a net has a number, given by the plan alone, under which a net keeps what it
//! knows of the atom.
#![tactic(auto)]

pub mod cells;
pub mod laws;
pub mod places;

pub use cells::Cells;
pub use places::{Places, Spot, Thing};
