//! The bill of materials and the routing of an evaluation, and how they are printed.
#![tactic(auto)]

pub mod amounts;
pub mod billing;
pub mod components;
pub mod laws;
pub mod numbers;
pub mod ranges;
pub mod routing;
pub mod selecting;
pub mod texts;

pub use billing::bill_lines;
pub use routing::operations;
pub use texts::{print_bill, print_routing};
