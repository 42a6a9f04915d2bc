//! What a net says: atoms, the steps that give them, and what contradicts.

use vc_value::{Listed, Value};

/// A fact of the net.
#[derive(Clone, Copy, Debug, PartialEq, Eq)]
pub enum Atom {
    /// The slot is here.
    Here(u32),
    /// The grain of the variable is excluded.
    Out(u32, u32),
    /// The variable has the value.
    Is(u32, Value),
}

/// Who gives an atom.
#[derive(Clone, Copy, Debug, PartialEq, Eq)]
pub enum Origin {
    /// The rule of this number.
    Rule(u32),
    /// The user, by a value of the atom's variable.
    User,
    /// A statement, by what it wrote to the atom's variable.
    Written { proc: u32, statement: u32 },
}

/// An atom with its justification.
#[derive(Debug, Drop)]
pub struct Step {
    pub conclusion: Atom,
    pub origin: Origin,
    /// Numbers of steps, counted from 1; 0 is that slot 0 is here.
    pub premises: Listed<u32>,
}

/// Whom a contradiction blames.
#[derive(Clone, Copy, Debug, PartialEq, Eq)]
pub enum Culprit {
    /// A constraint's rule.
    Rule(u32),
    /// A statement of a procedure.
    Written { proc: u32, statement: u32 },
    /// A precondition that hides a variable or its value.
    Hidden { dependency: u32, var: u32 },
    /// A precondition that hides a set or one of its texts.
    HiddenSet { dependency: u32, set: u32 },
}

/// How settling ends.
#[derive(Clone, Copy, Debug, PartialEq, Eq)]
pub enum Outcome {
    Settled,
    Broken(Culprit),
}

/// A contradiction with the steps that lead to it.
#[derive(Debug, Drop)]
pub struct Clash {
    pub steps: Listed<Step>,
    pub culprit: Culprit,
    /// Numbers of steps, counted from 1; 0 is that slot 0 is here.
    pub premises: Listed<u32>,
}

/// What a statement wrote to a variable.
#[derive(Clone, Copy, Debug, PartialEq, Eq)]
pub enum Mark {
    /// This value.
    Held(Value),
    /// A value that the variable can't have.
    Outside,
}
