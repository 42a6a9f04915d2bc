//! Reading the lines of chains: the step that a line spells in a plan, and the clash that one spells.
#![tactic(auto)]

pub mod cutting;
pub mod endings;
pub mod numbers;
pub mod places;
pub mod spelling;
pub mod steps;
pub mod values;

pub use endings::{Ending, read_ending};
pub use steps::read_step;
