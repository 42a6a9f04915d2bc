//! The rows of tables in the order of the columns by which statements look them up.
#![tactic(auto)]

pub mod look_ups;
pub mod orders;
pub mod ranks;

pub use look_ups::LookUps;
pub use orders::Order;
