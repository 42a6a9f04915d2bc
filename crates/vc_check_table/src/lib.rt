//! What a table call of a constraint says, asked and not listed: whether it clashes, whether it has an atom, and
//! whether all of it is said already.
#![tactic(auto)]

pub mod agreed;
pub mod columns;
pub mod rows;
pub mod table;

pub use table::{are_said, clashes, gives};
