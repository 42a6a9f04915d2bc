//! The truth of conditions and the values of terms as they are read in full: with the user's sets, and where procedures
//! read with sums over parts.
#![tactic(auto)]

pub mod beside;
pub mod facts;
pub mod finding;
pub mod laws;
pub mod numbers;
pub mod parts;
pub mod procedures;
pub mod sets;
pub mod truths;
pub mod whole;

pub use beside::{Beside, Marks};
pub use parts::amount;
pub use procedures::{procedure_number, procedure_truth, procedure_value};
pub use whole::full_truth;
