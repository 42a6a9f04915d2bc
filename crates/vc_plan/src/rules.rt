//! Rules of a net.

use crate::conditions::{Piece, Relation};
use vc_value::{Listed, Value};

/// What a restriction of one variable against literals names.
#[derive(Debug, Drop)]
pub enum Restriction {
    /// What stands in the relation to the literal. At `=` the literal counts rounded to the variable's decimals.
    Against(Relation, Value),
    /// What lies in one of the pieces.
    OneOf(Listed<Piece>),
}

/// What a constraint's table call gives to a column.
#[derive(Clone, Copy, Debug, PartialEq, Eq)]
pub enum Operand {
    Constant(Value),
    Variable(u32),
}

/// A column of a table, by its place there, with what it is given.
#[derive(Clone, Copy, Debug, PartialEq, Eq)]
pub struct Binding {
    pub column: u32,
    pub operand: Operand,
}

/// What a rule says where it acts.
#[derive(Debug, Drop)]
pub enum Kind {
    /// The variable is restricted against literals.
    Among(u32, Restriction),
    /// The first term stands in the relation to the second. The relation isn't `=`.
    Compare {
        relation: Relation,
        left: u32,
        right: u32,
    },
    /// Both terms are equal.
    Equate {
        left: u32,
        right: u32,
    },
    /// The columns are those of one row of the table.
    ByTable {
        table: u32,
        columns: Listed<Binding>,
    },
    /// This must not be.
    Never,
    /// The variable has its last grain.
    Last(u32),
    /// The slot is here if its parent is.
    Line(u32),
}

/// A rule.
#[derive(Debug)]
pub struct Rule {
    /// The constraint that it is of, or the slot's selection condition.
    pub dependency: Option<u32>,
    /// Which restriction of the constraint it is, or which selection condition of the line, from 1; 0 where it is of
    /// none.
    pub number: u32,
    /// The slots of a constraint's objects, in their order. No other rule has any.
    pub slots: Listed<u32>,
    /// The number of its condition.
    pub condition: u32,
    /// The variables that it may narrow.
    pub inferred: Listed<u32>,
    pub kind: Kind,
}

// By hand, as a derived one is proved again, with all of its parts, in each crate that drops a rule.
impl Drop for Rule {
    fn drop(self) {
        let Rule {
            dependency: _,
            number: _,
            slots,
            condition: _,
            inferred,
            kind,
        } = self;
        drop(slots);
        drop(inferred);
        drop(kind);
    }
}
