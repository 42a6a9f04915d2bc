//! Values of the trade: words, lists, numbers and what a characteristic may have.
#![tactic(auto)]

pub mod decimal;
pub mod grains;
pub mod listed;
pub mod names;
pub mod numeral;
pub mod table_header;
pub mod value;
pub mod word;

pub use decimal::{Dec, NumFault};
pub use grains::{Grain, GrainList};
pub use listed::Listed;
pub use names::{is_name, is_session_name};
pub use numeral::printed_is_read;
pub use table_header::{Column, Domain, Entry, TableHeader};
pub use value::Value;
pub use word::{Word, equals_ignoring_case};
