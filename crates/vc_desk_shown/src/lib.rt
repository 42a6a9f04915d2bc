//! What is told of a session: how it stands, what it shows, its bill and its routing.
#![tactic(auto)]

pub mod bills;
pub mod chosen;
pub mod instances;
pub mod laws;
pub mod showing;
pub mod statuses;

pub use bills::{bill, routing};
pub use showing::rows;
pub use statuses::status;
