//! Model texts, and the models that they spell.
#![tactic(auto)]

pub mod laws;
pub mod reader;

pub use reader::read_model;
pub use vc_model_faults::{ModelFault, ModelFaultKind};
pub use vc_model_parts::{Model, header, table_count, table_file};
