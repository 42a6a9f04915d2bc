//! Procedures and their statements.

use crate::conditions::Piece;
use vc_value::Listed;

/// Where a procedure runs.
#[derive(Clone, Copy, Debug, PartialEq, Eq)]
pub enum Trigger {
    /// Wherever its slot is here.
    Anyway,
    /// Where the variable's value lies in the piece.
    ValueIn(u32, Piece),
    /// Where the set has the text.
    TextIn { set: u32, text: u32 },
}

/// A key column of a table, by its place there, with the term whose value is looked up.
#[derive(Clone, Copy, Debug, PartialEq, Eq)]
pub struct KeyTerm {
    pub column: u32,
    pub term: u32,
}

/// A column of a table, by its place there, with the variable that gets its cell.
#[derive(Clone, Copy, Debug, PartialEq, Eq)]
pub struct FilledColumn {
    pub column: u32,
    pub var: u32,
}

/// What a statement does.
#[derive(Debug, Drop)]
pub enum Action {
    /// `$SELF.C = term`.
    Assign {
        var: u32,
        term: u32,
    },
    /// `$SET_DEFAULT ($SELF, C, term)`.
    SetDefault {
        var: u32,
        term: u32,
    },
    /// `$DEL_DEFAULT ($SELF, C, term)`.
    DeleteDefault {
        var: u32,
        term: u32,
    },
    /// `TABLE T (..)`.
    LookUp {
        table: u32,
        keys: Listed<KeyTerm>,
        filled: Listed<FilledColumn>,
    },
}

/// A statement of a procedure.
#[derive(Debug, Drop)]
pub struct Statement {
    pub action: Action,
    /// The number of its condition.
    pub condition: u32,
}

/// A procedure at a slot.
#[derive(Debug)]
pub struct Procedure {
    pub slot: u32,
    pub dependency: u32,
    pub trigger: Trigger,
    pub statements: Listed<Statement>,
}

// By hand, as a derived one is proved again, with all of its parts, in each crate that drops a procedure.
impl Drop for Procedure {
    fn drop(self) {
        let Procedure {
            slot: _,
            dependency: _,
            trigger: _,
            statements,
        } = self;
        drop(statements);
    }
}
