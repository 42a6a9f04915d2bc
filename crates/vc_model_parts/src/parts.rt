//! A model as plain data: indices stand in place of names wherever a name is declared.

use vc_syntax_tree::{Dependency, Term};
use vc_value::{Dec, Listed, Word};

/// A text that a characteristic may have as its value.
#[derive(Drop)]
pub struct TextValue {
    /// The text's number in the model.
    pub text: u32,
    /// Preconditions and procedures, by their numbers among the dependencies.
    pub uses: Listed<u32>,
}

/// Numbers that a characteristic may have as its value, from one to another, both included.
#[derive(Drop)]
pub struct NumberValue {
    pub low: Dec,
    pub high: Dec,
    /// Preconditions and procedures, by their numbers among the dependencies.
    pub uses: Listed<u32>,
}

/// What a characteristic may have as its value, in the order of the text.
#[derive(Drop)]
pub enum Values {
    /// Texts of at most so many characters.
    Texts {
        length: u8,
        multiple: bool,
        values: Listed<TextValue>,
    },
    /// Numbers of at most so many decimals.
    Numbers {
        decimals: u8,
        unit: Option<Word>,
        values: Listed<NumberValue>,
    },
}

/// A characteristic.
#[derive(Drop)]
pub struct Characteristic {
    pub name: Word,
    pub restrictable: bool,
    pub required: bool,
    /// Preconditions, selection conditions and procedures, by their numbers among the dependencies.
    pub uses: Listed<u32>,
    pub values: Values,
}

/// A class with its characteristics, by their numbers.
#[derive(Drop)]
pub struct Class {
    pub name: Word,
    pub members: Listed<u32>,
}

/// A column of a table.
#[derive(Clone, Copy, Debug, PartialEq, Eq)]
pub struct TableColumn {
    /// The characteristic's number.
    pub characteristic: u32,
    pub key: bool,
}

/// A variant table with the name of its file.
#[derive(Drop)]
pub struct Table {
    pub name: Word,
    pub file: Word,
    pub columns: Listed<TableColumn>,
}

/// A dependency, whose kind its tree tells, with the number of the line that opens its block.
pub struct NamedDependency {
    pub name: Word,
    pub tree: Dependency,
    pub line: u32,
}

// By hand, as a derived one is proved again, with all of its parts, in each crate that drops a dependency.
impl Drop for NamedDependency {
    fn drop(self) {
        let NamedDependency {
            name,
            tree,
            line: _,
        } = self;
        drop(name);
        drop(tree);
    }
}

/// A dependency net with its constraints, by their numbers among the dependencies.
#[derive(Drop)]
pub struct Net {
    pub name: Word,
    pub constraints: Listed<u32>,
}

/// What a line of a bill has.
#[derive(Drop)]
pub enum Component {
    /// An object, by its number.
    Object(u32),
    /// A material that is no object.
    Plain(Word),
}

/// A line of a bill, with its number among the lines of the text.
#[derive(Drop)]
pub struct BillItem {
    pub item: u16,
    pub component: Component,
    pub unit: Word,
    pub quantity: Box<Term>,
    /// Selection conditions, by their numbers among the dependencies.
    pub uses: Listed<u32>,
    pub line: u32,
}

/// An operation, with the number of its line among those of the text.
#[derive(Drop)]
pub struct Operation {
    pub number: u16,
    pub centre: Word,
    pub unit: Word,
    pub time: Box<Term>,
    /// Selection conditions, by their numbers among the dependencies.
    pub uses: Listed<u32>,
    pub line: u32,
}

/// A configurable object.
#[derive(Drop)]
pub struct Object {
    pub material: Word,
    /// The class's number.
    pub class: u32,
    /// The nets of its profile, by their numbers.
    pub nets: Listed<u32>,
    /// The procedures of its profile, by their numbers among the dependencies.
    pub procedures: Listed<u32>,
    pub bill: Listed<BillItem>,
    pub operations: Listed<Operation>,
}

/// A model. All lists are in the order of the text.
pub struct Model {
    pub name: Word,
    pub version: u32,
    pub characteristics: Listed<Characteristic>,
    /// The texts of all values, each once; their places are their numbers.
    pub texts: Listed<Word>,
    pub classes: Listed<Class>,
    pub tables: Listed<Table>,
    pub dependencies: Listed<NamedDependency>,
    pub nets: Listed<Net>,
    pub objects: Listed<Object>,
    /// The root object's number.
    pub root: u32,
}

// By hand, as a derived one is proved again, with all of its parts, in each crate that drops a model.
impl Drop for Model {
    fn drop(self) {
        let Model {
            name,
            version: _,
            characteristics,
            texts,
            classes,
            tables,
            dependencies,
            nets,
            objects,
            root: _,
        } = self;
        drop(name);
        drop(characteristics);
        drop(texts);
        drop(classes);
        drop(tables);
        drop(dependencies);
        drop(nets);
        drop(objects);
    }
}
