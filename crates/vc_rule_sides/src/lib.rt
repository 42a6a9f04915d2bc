//! What rules say that relate two terms, with what it follows from.
#![tactic(auto)]

pub mod assigning;
pub mod comparing;
pub mod equating;
pub mod laws;
pub mod sides;

pub use comparing::say_compare;
pub use equating::say_equate;
