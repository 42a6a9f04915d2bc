//! The command `check`: the counts of a model's plan, or the first thing that is wrong.
#![tactic(auto)]

pub mod checking;
pub mod counts;
pub mod lines;
pub mod stops;

pub use checking::check;
pub use counts::Counts;
