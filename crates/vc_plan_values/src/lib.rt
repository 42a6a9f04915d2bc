//! Values of plans, for all who compute them: the numbers of terms, relations, truth values, the grains of variables
//! and which values they hold; and that in a valid plan no number on the way is too wide.
#![tactic(auto)]

pub mod grains;
pub mod inferred;
pub mod laws;
pub mod numbers;
pub mod pieces;
pub mod relations;
pub mod rounding;
pub mod truths;
pub mod values;

pub use grains::{grain_count, is_restrictable, piece, some_holds, texts_of};
pub use inferred::{is_inferred, lone, lone_inferred};
pub use pieces::{is_part, lies_in, lies_in_some};
pub use relations::{is_inside, opposite, relates, turned};
pub use rounding::{decimals_of, stored_value};
pub use truths::{compared, is_false, is_true};
pub use values::{TermValue, of_value};
