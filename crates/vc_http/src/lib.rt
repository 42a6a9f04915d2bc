//! Messages over a link: what was read and isn't used yet, the next request, and the response to it.
#![tactic(auto)]

pub mod answers;
pub mod buffer;
pub mod reading;
pub mod turns;

pub use answers::{status_of, write_reply};
pub use buffer::Buf;
pub use reading::next_request;
pub use turns::Turn;

#[cfg(test)]
mod tests;
