//! The responses to messages over HTTP, by the byte.
#![tactic(auto)]

pub mod fields;
pub mod responses;
pub mod sending;

pub use responses::{SendFault, response_to, write_bad, write_response};
pub use sending::send_each;

#[cfg(test)]
mod tests;
