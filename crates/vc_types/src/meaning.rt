//! What operands mean where a dependency stands.

/// What an operand means: a characteristic of the model, or the one thing that is wrong with it.
#[derive(Clone, Copy, Debug, PartialEq, Eq)]
pub enum Meaning {
    /// The characteristic of this number in the model.
    Characteristic(u32),
    /// No such characteristic, or no such `?` variable.
    Unknown,
    /// A variable of an object where a value belongs.
    ObjectForValue,
    /// A variable of a value before a dot.
    ValueForObject,
    /// An instance otherwise than by a `?` variable, in a constraint.
    SelfInConstraint,
    /// `$PARENT` at the root object.
    NoParent,
    /// `$SELF` at a line of a bill.
    SelfInLine,
    /// A `?` variable outside a constraint.
    VariableOutside,
}

/// What a `?` variable stands for.
#[derive(Clone, Copy, Debug, PartialEq, Eq)]
pub enum Referent {
    /// An object of the class of this number; none where the model hasn't the class.
    Object(Option<u32>),
    /// The characteristic of this number of an object; none where the object hasn't one.
    Value(Option<u32>),
}

/// What values are: texts or numbers.
#[derive(Clone, Copy, Debug, PartialEq, Eq)]
pub enum Sort {
    Texts,
    Numbers,
}
