//! Plans, and what is said of them.
#![tactic(auto)]

pub mod atoms;
pub mod conditions;
pub mod counts;
pub mod elements;
pub mod laws;
pub mod plans;
pub mod procedures;
pub mod rules;
pub mod shown;
pub mod stage_laws;
pub mod terms;
pub mod views;

pub use atoms::{Atom, Clash, Culprit, Mark, Origin, Outcome, Step};
pub use conditions::{Condition, Kleene, Piece, Relation};
pub use counts::{atom_count, count_of, stages};
pub use elements::element;
pub use plans::{
    Characteristic, Guard, Line, Named, Object, Operation, Plan, Requirement, Selection, Slot,
    Table, TableColumn, TextSet, Var,
};
pub use procedures::{Action, FilledColumn, KeyTerm, Procedure, Statement, Trigger};
pub use rules::{Binding, Kind, Operand, Restriction, Rule};
pub use shown::{BillLine, OperationLine, Status};
pub use terms::{Function, Operator, Term};
pub use views::{Reading, View};
