//! Conditions, and what they are made of.

use crate::terms::Term;
use vc_value::{Grain, Listed};

/// A truth value.
#[derive(Clone, Copy, Debug, PartialEq, Eq)]
pub enum Kleene {
    True,
    False,
    Unknown,
}

/// What relates two values.
#[derive(Clone, Copy, Debug, PartialEq, Eq)]
pub enum Relation {
    Equal,
    Unequal,
    Less,
    AtMost,
    Greater,
    AtLeast,
}

/// A text, or the numbers of a closed interval: a grain of a variable, or an item of a list.
#[derive(Clone, Copy, Debug, PartialEq, Eq)]
pub enum Piece {
    OneText(u32),
    Stretch(Grain),
}

/// A condition, in the variables and sets of a plan.
#[derive(Debug, Drop)]
pub enum Condition {
    /// What stands where there is no condition.
    Always,
    /// The first term stands in the relation to the second.
    Compared(Relation, Term, Term),
    /// The variable's value lies in one of the pieces.
    IsIn(u32, Listed<Piece>),
    /// The variable has a value.
    Specified(u32),
    /// The set has the text.
    Holds { set: u32, text: u32 },
    /// The set isn't empty.
    Filled(u32),
    Not(Box<Condition>),
    And(Box<Condition>, Box<Condition>),
    Or(Box<Condition>, Box<Condition>),
}
