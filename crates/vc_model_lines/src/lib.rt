//! The lines of a model text, taken apart by their words alone.
#![tactic(auto)]

pub mod classified;
pub mod counts;
pub mod cutting;
pub mod forms;
pub mod keywords;
pub mod line;
pub mod quoted;
pub mod spelling;
pub mod words;

pub use cutting::cut;
pub use line::{
    BillLine, BlockLine, CharLine, ColumnLine, HeadLine, IntervalLine, Keyword, Line, NumLine,
    ObjectLine, OperationLine, TableLine,
};
