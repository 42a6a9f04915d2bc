//! The first fault of a model text, by its lines; or, where there is none, their scope and readings.
#![tactic(auto)]

pub mod all_lines;
pub mod fault;
pub mod kinds;
pub mod limits;
pub mod misplaced;
pub mod misspelled;
pub mod one_line;
pub mod places;
pub mod readings;
pub mod twice;
pub mod unknown;
pub mod values;

pub use all_lines::{Sound, check_lines};
pub use fault::{ModelFault, ModelFaultKind};
pub use places::Place;
pub use readings::Reading;
