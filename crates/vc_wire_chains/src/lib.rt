//! Reading chain files: a list of steps, as a chain of reasons or whole, and the clash that may end a chain.
#![tactic(auto)]

pub mod drafts;
pub mod laws;
pub mod lines;
pub mod reading;

pub use drafts::ChainFile;
pub use reading::{ChainFault, read_chain};
