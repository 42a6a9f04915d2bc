//! A model as text: its parts in order, each on a line of its own.
#![tactic(auto)]

mod model_text;
mod objects;
mod pieces;
mod values;

pub use model_text::{Shown, show};
