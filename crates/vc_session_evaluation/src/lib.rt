//! The evaluation of a user's values through all stages of a plan: nets settle, and between them procedures write.
#![tactic(auto)]

pub mod clearing;
pub mod filling;
pub mod lateness;
pub mod laws;
pub mod settling;
pub mod sharing;
pub mod stages;
pub mod writing;

pub use sharing::SharedLookUps;
pub use stages::Stages;
