//! What the desk replies, and the lines that are written of it.
#![tactic(auto)]

pub mod chains;
pub mod culprits;
pub mod printing;
pub mod reply;

pub use printing::reply_text;
pub use reply::{Refusal, Reply, SavedRefusal};
