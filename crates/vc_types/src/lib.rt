//! The typing of dependencies: what operands mean where a dependency stands, and which faults it has there.
#![tactic(auto)]

pub mod fault;
pub mod meaning;
pub mod place;

pub use fault::TypeFaultKind;
pub use meaning::{Meaning, Referent, Sort};
pub use place::{At, Place};
