//! How the turn of a giver ends.

/// How the turn of a giver ends.
#[derive(Clone, Copy, Debug, PartialEq, Eq)]
pub enum Turn {
    /// All that it says stands.
    Done,
    /// It contradicts what stands.
    Broken,
}
