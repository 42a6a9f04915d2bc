//! Plans from files: a model's text and the files of its tables, read and compiled.
#![tactic(auto)]

pub mod files;
pub mod loading;
pub mod stop;
pub mod tables;

pub use files::read_file;
pub use loading::load_plan;
pub use stop::ModelStop;
