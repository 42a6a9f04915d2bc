//! The plan of a model: its slots and variables, and all that is said of them. Names and texts stand once, and are
//! meant by their numbers elsewhere.

use crate::conditions::{Condition, Piece};
use crate::procedures::Procedure;
use crate::rules::Rule;
use crate::terms::Term;
use vc_value::{Domain, Listed, Value, Word};

/// A characteristic of the model.
#[derive(Debug, Drop)]
pub struct Characteristic {
    pub name: Word,
    /// The unit that is shown with its numbers.
    pub unit: Option<Word>,
    /// Whether it must have a value, whatever the selection conditions are.
    pub required: bool,
    /// Its values as they are listed, one interval an entry.
    pub list: Domain,
}

/// A configurable object of the model.
#[derive(Debug, Drop)]
pub struct Object {
    pub material: Word,
    /// The characteristics of its class, in class order.
    pub characteristics: Listed<u32>,
}

/// A column of a variant table.
#[derive(Clone, Copy, Debug, PartialEq, Eq)]
pub struct TableColumn {
    pub characteristic: u32,
    pub key: bool,
}

/// A variant table.
#[derive(Debug, Drop)]
pub struct Table {
    pub name: Word,
    pub columns: Listed<TableColumn>,
    /// The rows in order, each with a cell for each column.
    pub rows: Listed<Listed<Value>>,
}

/// A place for an object: the root, or a configurable line.
#[derive(Clone, Copy, Debug, PartialEq, Eq)]
pub struct Slot {
    pub parent: Option<u32>,
    pub depth: u8,
    pub object: u32,
    /// The line of its parent that it stands for; 0 at the root.
    pub line: u32,
}

/// A slot with a characteristic that has one value.
#[derive(Clone, Copy, Debug, PartialEq, Eq)]
pub struct Var {
    pub slot: u32,
    pub characteristic: u32,
    pub domain: u32,
    pub restrictable: bool,
}

/// A slot with a characteristic that has a set of texts.
#[derive(Clone, Copy, Debug, PartialEq, Eq)]
pub struct TextSet {
    pub slot: u32,
    pub characteristic: u32,
    pub domain: u32,
}

/// What a name at a slot means.
#[derive(Clone, Copy, Debug, PartialEq, Eq)]
pub enum Named {
    Var(u32),
    Set(u32),
}

/// A selection condition.
#[derive(Clone, Copy, Debug, PartialEq, Eq)]
pub struct Selection {
    pub dependency: u32,
    pub condition: u32,
}

/// A bill line of a slot.
#[derive(Debug, Drop)]
pub struct Line {
    pub slot: u32,
    pub item: u32,
    pub material: Word,
    pub unit: Word,
    /// The term of its quantity.
    pub quantity: u32,
    /// Its selection conditions. Those of a configurable line stand in the rules of its slot, and not here.
    pub selections: Listed<Selection>,
}

/// An operation of a slot.
#[derive(Debug, Drop)]
pub struct Operation {
    pub slot: u32,
    pub number: u32,
    pub name: Word,
    pub unit: Word,
    /// The term of its time.
    pub time: u32,
    pub selections: Listed<Selection>,
}

/// A precondition.
#[derive(Clone, Copy, Debug, PartialEq, Eq)]
pub struct Guard {
    pub at: Named,
    /// The listed value that it guards; none where it guards the characteristic.
    pub value: Option<Piece>,
    pub dependency: u32,
    pub condition: u32,
}

/// A selection condition at a characteristic: where it is true, a value is required.
#[derive(Clone, Copy, Debug, PartialEq, Eq)]
pub struct Requirement {
    pub at: Named,
    pub selection: Selection,
}

/// The plan of a model.
#[derive(Debug)]
pub struct Plan {
    pub name: Word,
    pub version: u32,
    /// The texts by their numbers.
    pub texts: Listed<Word>,
    /// The names of dependencies.
    pub dependencies: Listed<Word>,
    pub characteristics: Listed<Characteristic>,
    pub objects: Listed<Object>,
    /// The values of characteristics, cut into grains.
    pub domains: Listed<Domain>,
    pub tables: Listed<Table>,
    pub slots: Listed<Slot>,
    pub vars: Listed<Var>,
    pub sets: Listed<TextSet>,
    pub conditions: Listed<Condition>,
    pub terms: Listed<Term>,
    pub rules: Listed<Rule>,
    pub procedures: Listed<Procedure>,
    pub lines: Listed<Line>,
    pub operations: Listed<Operation>,
    pub guards: Listed<Guard>,
    pub requirements: Listed<Requirement>,
}

// By hand, as a derived one is proved again, with all of its parts, in each crate that drops a plan.
impl Drop for Plan {
    fn drop(self) {
        let Plan {
            name,
            version: _,
            texts,
            dependencies,
            characteristics,
            objects,
            domains,
            tables,
            slots,
            vars,
            sets,
            conditions,
            terms,
            rules,
            procedures,
            lines,
            operations,
            guards,
            requirements,
        } = self;
        drop(name);
        drop(texts);
        drop(dependencies);
        drop(characteristics);
        drop(objects);
        drop(domains);
        drop(tables);
        drop(slots);
        drop(vars);
        drop(sets);
        drop(conditions);
        drop(terms);
        drop(rules);
        drop(procedures);
        drop(lines);
        drop(operations);
        drop(guards);
        drop(requirements);
    }
}
