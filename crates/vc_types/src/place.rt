//! Where a dependency stands.

/// At what a dependency stands.
#[derive(Clone, Copy, Debug, PartialEq, Eq)]
pub enum At {
    /// In a net: a constraint.
    Constraint,
    /// At a characteristic or a value: a precondition or selection condition.
    Characteristic,
    /// In the profile, at a characteristic or at a value: a procedure.
    Procedure,
    /// At a line of a bill: a selection condition or the quantity.
    Line {
        /// Whether the line's component is an object.
        configurable: bool,
    },
    /// At an operation: a selection condition or the time.
    Operation,
}

/// Where a dependency stands: at which object, and below which. A constraint stands at none, and what
/// is said of its object isn't looked at.
#[derive(Clone, Copy, Debug, PartialEq, Eq)]
pub struct Place {
    /// The object's number; of a line or operation the one that owns it.
    pub object: u32,
    /// The number of the object of the direct superior instance, which the root has not.
    pub parent: Option<u32>,
    pub at: At,
}
