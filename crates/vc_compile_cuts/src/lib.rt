//! The numbers at which characteristics are cut, and the domains that this leaves.
#![tactic(auto)]

pub mod cutting;
pub mod domains;
pub mod marks;
pub mod tables;

pub use domains::domains_of;
pub use marks::Mark;
