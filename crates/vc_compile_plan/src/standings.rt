//! Objects at their places in the bills.

/// An object that is the root, or that a line of a slot's bill brings.
#[derive(Clone, Copy, Debug, PartialEq, Eq)]
pub struct Standing {
    /// The number of the slot above it, which the root has not.
    pub parent: Option<u32>,
    pub depth: u8,
    pub object: u32,
    /// The place in that slot's bill of the line that it stands for, counted from 0; 0 at the root.
    pub item: u32,
}
