//! The characteristics, objects and tables of a model as its plan keeps them, and the words that it takes over.
#![tactic(auto)]

pub mod characteristics;
pub mod copies;
pub mod objects;
pub mod tables;

pub use characteristics::characteristics_of;
pub use copies::{copy_word, dependency_names};
pub use objects::objects_of;
pub use tables::tables_of;
