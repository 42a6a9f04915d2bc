//! The command `run`: a script's lines, answered by the desk of a model's plan, and how that ends.
#![tactic(auto)]

pub mod ending;
pub mod loading;
pub mod running;

pub use ending::Ending;
pub use running::end;
