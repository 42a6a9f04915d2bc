//! The parts of a model as plain data, and what the files of its tables must have.
#![tactic(auto)]

pub mod headers;
pub mod parts;

pub use headers::{
    column_among, domain_of, grains_of, header, numbers_of, table_count, table_file,
};
pub use parts::{
    BillItem, Characteristic, Class, Component, Model, NamedDependency, Net, NumberValue, Object,
    Operation, Table, TableColumn, TextValue, Values,
};
