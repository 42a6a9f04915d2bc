//! What the user chose: of each variable of a plan a value, and of each set which of its texts are held.
#![tactic(auto)]

pub mod users;

pub use users::{SetText, UserValues};
