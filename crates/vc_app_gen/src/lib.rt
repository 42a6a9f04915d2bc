//! The command `gen`: families of models that are made from numbers, each read, compiled and asked, and what is told.
#![tactic(auto)]

pub mod asking;
pub mod counting;
pub mod families;
pub mod generating;
pub mod tally;

pub use counting::families_asked;
pub use generating::generate;
