//! The separate checker: whether a list of steps is accepted, which step is the first that isn't, whether a list is
//! whole and whether a clash refutes. It stands on the definitions alone, and on no other evaluator.
#![tactic(auto)]

pub mod accepting;
pub mod citing;
pub mod following;
pub mod refuting;
pub mod settling;

pub use accepting::{accepts, first_refused};
pub use refuting::refutes;
pub use settling::settled;
