//! Requests to the desk, as a script's lines spell them.
#![tactic(auto)]

pub mod cutting;
pub mod laws;
pub mod making;
pub mod printing;
pub mod reading;
pub mod request;
pub mod verbs;

pub use printing::line_text;
pub use reading::read_line;
pub use request::Request;
