//! Who gives atoms.

/// Who gives atoms of a net.
#[derive(Clone, Copy, Debug, PartialEq, Eq)]
pub enum Giver {
    /// The rule of this number.
    Rule(u32),
    /// The user, by a value of the variable.
    User(u32),
    /// A statement, by what it wrote to the variable.
    Entry(u32),
}
