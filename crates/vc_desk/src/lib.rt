//! The desk: open sessions of a plan by their names, texts that are saved, and what is answered to a request.
#![tactic(auto)]

pub mod desk;
pub mod laws;
pub mod saved;
pub mod sessions;
pub mod sharing;
pub mod tasks;

pub use desk::Desk;
