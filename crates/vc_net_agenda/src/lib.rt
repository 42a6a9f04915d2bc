//! Who is to be asked next while a net settles: each giver once, last in first out, in memory that is taken once.
#![tactic(auto)]

pub mod agenda;
pub mod givers;
pub mod laws;
pub mod pending;

pub use agenda::Agenda;
pub use givers::Giver;
pub use pending::Pending;
