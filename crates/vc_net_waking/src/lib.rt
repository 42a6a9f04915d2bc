//! Whom a net asks: who may have anything to say at the start, and whom an atom wakes when it has come. Who is at rest
//! then isn't woken. How many rules an edit may ask so: no more than the work on the things that it reaches.
#![tactic(auto)]

pub mod beginning;
pub mod laws;
pub mod waking;

pub use beginning::{begin, untriggered};
pub use waking::wake;
