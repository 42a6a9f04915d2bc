//! What rules and sources say where they act, but for tables: in parts, of which is asked whether they clash, whether
//! they have an atom and whether all of it is said already.
#![tactic(auto)]

pub mod comparing;
pub mod confining;
pub mod equating;
pub mod grains_left;
pub mod kinds;
pub mod parts;
pub mod tests;

pub use parts::{Part, Parts};
pub use tests::Test;
