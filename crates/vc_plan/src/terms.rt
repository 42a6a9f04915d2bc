//! Terms: what has a number, or a text, by the values of variables.

use vc_value::Value;

/// What joins two numbers.
#[derive(Clone, Copy, Debug, PartialEq, Eq)]
pub enum Operator {
    Plus,
    Minus,
    Times,
    Over,
}

/// A function of one number.
#[derive(Clone, Copy, Debug, PartialEq, Eq)]
pub enum Function {
    /// The number with the other sign.
    Negative,
    /// The number without its sign.
    Abs,
    /// -1, 0 or 1.
    Sign,
    /// The whole number next to it towards zero.
    Trunc,
    /// The greatest whole number that isn't above it.
    Floor,
    /// The least whole number that isn't below it.
    Ceil,
    /// What is left without its whole number towards zero.
    Frac,
}

/// A term, in the variables of a plan.
#[derive(Debug, Drop)]
pub enum Term {
    /// A text or a number.
    Literal(Value),
    /// The value of a variable.
    Read(u32),
    /// The sum, over the slot's direct parts that have the characteristic, of quantity times value.
    PartSum { slot: u32, characteristic: u32 },
    /// The sum of the quantities of the slot's direct parts.
    PartCount(u32),
    Applied(Function, Box<Term>),
    Joined(Operator, Box<Term>, Box<Term>),
}
