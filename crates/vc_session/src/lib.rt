//! A session: what a user chose of a plan, evaluated through all stages after each edit.
#![tactic(auto)]

pub mod choosing;
pub mod evaluating;
pub mod explaining;
pub mod listing;
pub mod session;

pub use session::{NotSet, Session, SetFault};
