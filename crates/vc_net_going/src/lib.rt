//! How the work of a net goes on: what it has concluded, who is to be asked, and how a conclusion comes, or breaks it;
//! and how it goes on with other sources: what is kept of its log stays, and whoever may have more to say is asked.
#![tactic(auto)]

pub mod asking;
pub mod breaker;
pub mod parts;
pub mod renewing;
pub mod turn;
pub mod work;

pub use breaker::Breaker;
pub use renewing::{renew, renew_at};
pub use turn::Turn;
pub use work::Work;
