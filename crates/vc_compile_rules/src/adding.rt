//! Rules, put one behind another as long as there is room.

/// The most rules that a plan may have.
pub const MOST_RULES: usize = 20_000;

/// Whether a plan has room for more rules.
#[derive(Clone, Copy, Debug, PartialEq, Eq)]
pub enum Room {
    Enough,
    /// There would be more than a plan may have.
    TooMany,
}
