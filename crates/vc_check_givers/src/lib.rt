//! Givers: rules by their numbers, the user's values and entries. Of each it is asked what it reads, whether it
//! clashes, whether it gives an atom and whether it gives nothing.
#![tactic(auto)]

pub mod givers;
pub mod reading;
pub mod said;

pub use givers::{Giver, giver_of};
pub use reading::reads;
pub use said::{clashes, gives, is_silent};
