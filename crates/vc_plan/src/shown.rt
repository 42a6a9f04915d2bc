//! What is read off an evaluation at its end: status, bill and routing.

use crate::atoms::Culprit;
use vc_value::Dec;

/// How a configuration stands.
#[derive(Clone, Copy, Debug, PartialEq, Eq)]
pub enum Status {
    /// Something that is required has no value.
    Unfinished,
    /// All that is required has a value.
    Complete,
    /// Values contradict each other, or one is hidden.
    Contradiction(Culprit),
}

/// A line of the bill of materials.
#[derive(Clone, Copy, Debug, PartialEq, Eq)]
pub struct BillLine {
    /// 1 for the root's lines, one more for those of each component.
    pub level: u8,
    pub slot: u32,
    /// The number of the plan's line.
    pub line: u32,
    /// None where the quantity has no value, or one of a size of 10^9 or more.
    pub quantity: Option<Dec>,
}

/// A line of the routing.
#[derive(Clone, Copy, Debug, PartialEq, Eq)]
pub struct OperationLine {
    pub slot: u32,
    /// The number of the plan's operation.
    pub operation: u32,
    /// None where the time has no value, or one of a size of 10^9 or more.
    pub time: Option<Dec>,
}
