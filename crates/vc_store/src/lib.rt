//! Saved sessions: the text that a session's values are saved as, and what a saved text gives.
#![tactic(auto)]

pub mod faults;
pub mod giving;
pub mod laws;
pub mod marks;
pub mod naming;
pub mod reading;
pub mod words;
pub mod writing;

pub use faults::SavedFault;
pub use reading::read_saved;
pub use writing::save_text;
