//! The typing of a dependency where it stands: its least fault, or what its operands mean.
#![tactic(auto)]

pub mod doubles;
pub mod faults;
pub mod found;
pub mod instances;
pub mod kinds;
pub mod typing;

pub use instances::Instance;
pub use typing::{TypeFault, Typed, type_dependency, type_term};
