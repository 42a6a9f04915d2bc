//! The top call: from the words of the command line to what is written.
#![tactic(auto)]

pub mod top;
pub mod words;

pub use top::desk;
