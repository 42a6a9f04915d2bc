//! The stages of an evaluation, each by what its set says: laws by which a session goes from one to the next.
//! Definitions and laws alone.
#![tactic(auto)]

pub mod laws;
