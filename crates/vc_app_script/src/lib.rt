//! Answering a script, a line after the other.
#![tactic(auto)]

pub mod script;
pub mod transcript;

pub use transcript::{ScriptFault, answer_script};
