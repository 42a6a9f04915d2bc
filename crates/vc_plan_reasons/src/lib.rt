//! Reasons: which steps the plain rules accept, what contradicts, what is kept when sources change, and what that may
//! cost. Definitions and their laws.
#![tactic(auto)]

pub mod laws;
