//! The kinds of faults that the typing tells.

ghost use Rattle.std.specs.Prelude.{◌≡◌};
ghost use Rattle.vc_types.specs.Kinds.{number_of};

/// What is wrong with a dependency at a place. The least of the kinds that stand there is told.
#[derive(Clone, Copy, Debug, PartialEq, Eq)]
pub enum TypeFaultKind {
    /// An operand's object has no such characteristic; a class, object, table or column isn't in the
    /// model; a `?` variable isn't declared; no component of the instance has the characteristic of a
    /// part sum.
    UnknownName,
    /// A `?` variable is declared twice, or a column is named twice in one call.
    DoubleName,
    /// A text meets a number, an order or arithmetic a text; a variable of an object stands for a
    /// value or a variable of a value before a dot; a characteristic with MULTIPLE stands where one
    /// with a single value belongs.
    WrongKind,
    /// In a constraint or a condition of a configurable line: SPECIFIED under NOT, or a characteristic
    /// with MULTIPLE.
    NotMonotone,
    /// A constraint speaks of an instance otherwise than by a `?` variable.
    SelfInConstraint,
    /// `$PARENT` at the root object.
    NoParent,
    /// `$SELF` at a line of a bill.
    SelfInLine,
    /// A `?` variable outside a constraint.
    VariableOutside,
    /// In a procedure's TABLE: the table has no key, a key is missing, no other column is named, or
    /// one that is no key is given something else than a characteristic of the instance.
    NoKey,
    /// In a constraint's TABLE: a term that is neither a characteristic nor a literal.
    NotATerm,
    /// A part sum elsewhere than in a procedure.
    SumPlace,
    /// A number may get too large to be computed.
    RangeTooWide,
    /// PART_OF elsewhere than in CONDITION, alone or joined by AND.
    PartOfPlace,
    /// More than four variables of objects.
    TooManyObjects,
}

impl TypeFaultKind {
    /// The kind's number, counted from 1.
    pub fn number(self) -> u8
        ensures { result ≡ number_of self }
    {
        match self {
            TypeFaultKind::UnknownName => 1,
            TypeFaultKind::DoubleName => 2,
            TypeFaultKind::WrongKind => 3,
            TypeFaultKind::NotMonotone => 4,
            TypeFaultKind::SelfInConstraint => 5,
            TypeFaultKind::NoParent => 6,
            TypeFaultKind::SelfInLine => 7,
            TypeFaultKind::VariableOutside => 8,
            TypeFaultKind::NoKey => 9,
            TypeFaultKind::NotATerm => 10,
            TypeFaultKind::SumPlace => 11,
            TypeFaultKind::RangeTooWide => 12,
            TypeFaultKind::PartOfPlace => 13,
            TypeFaultKind::TooManyObjects => 14,
        }
    }
}
