//! The routes of requests over HTTP, and their methods.
#![tactic(auto)]

pub mod methods;
pub mod routes;

pub use methods::{Allow, Method, allows, method_of};
pub use routes::{Route, allow_of, find_route, new_routes};

#[cfg(test)]
mod tests;
