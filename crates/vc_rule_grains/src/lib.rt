//! What rules say of the grains of one variable, and of slots: the kinds Among, Never, Last and
//! Line, with what their conclusions follow from.
#![tactic(auto)]

pub mod allowing;
pub mod confining;
pub mod finding;
pub mod grains;
pub mod kinds;
pub mod laws;
pub mod remaining;
pub mod testing;

pub use confining::{cite_why_left, confine};
pub use kinds::{say_among, say_last, say_line, say_never};
pub use testing::{AnyPiece, Test};
