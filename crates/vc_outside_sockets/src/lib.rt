//! Links and doors over TCP.
#![tactic(auto)]

pub mod tcp_door;
pub mod tcp_link;

pub use tcp_door::TcpDoor;
pub use tcp_link::TcpLink;

#[cfg(test)]
mod tests;
