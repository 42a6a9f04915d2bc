//! A model with an index of its names.

ghost use Rattle.std.proofs.Props.{props};
ghost use Rattle.std.specs.Prelude.{◌≡◌, ◌==◌, ℕ, List, find, map, option_copied, position, slice_get, IfOk};
ghost use Rattle.std.specs.Str.{bytes_eq};
ghost use Rattle.vc_types.specs.Looking as looking;
ghost use Rattle.vc_types.specs.RangeFaults.{largest, size_in, size_of_values, value_size};
ghost use Rattle.vc_types.specs.Settings.{are_multiple, is_multiple, sort_of_characteristic, sort_of_values};
ghost use Rattle.vc_types_names.specs.FirstNames.{value_of};
ghost use Rattle.vc_types_names.specs.Members.{rows_of};

use crate::first_named::FirstNamed;
use crate::members::{if_flagged, rows_of};
use crate::named::places;
use std::alloc::{AllocError, Global};
use vc_model_parts::{
    Characteristic, Class, Model, NumberValue, Object, Table, TableColumn, Values,
};
use vc_types::Sort;
use vc_value::Listed;

/// A model with an index of its names.
#[derive(Drop)]
pub struct Names<'a> {
    model: &'a Model,
    characteristics: FirstNamed<u32>,
    classes: FirstNamed<u32>,
    objects: FirstNamed<u32>,
    tables: FirstNamed<u32>,
    // the largest size of a number of each characteristic, in millionths
    sizes: Listed<u64>,
    // of each class, for each characteristic whether it has it
    members: Listed<Listed<bool>>,
    ghost characteristics_are: { (name : List ℕ) → value_of characteristics name
        ≡ looking.characteristic_named model.now name } by { Prim.hlevel props },
    ghost classes_are: { (name : List ℕ) → value_of classes name
        ≡ looking.class_named model.now name } by { Prim.hlevel props },
    ghost objects_are: { (name : List ℕ) → value_of objects name
        ≡ looking.object_named model.now name } by { Prim.hlevel props },
    ghost tables_are: { (name : List ℕ) → value_of tables name
        ≡ position (λ t. bytes_eq t.name name) (model.now).tables } by { Prim.hlevel props },
    ghost sizes_are: { sizes
        ≡ map (λ c. size_of_values c.values) (model.now).characteristics } by { Prim.hlevel props },
    ghost members_are: { members
        ≡ rows_of (model.now).classes } by { Prim.hlevel props },
}

impl<'a> Names<'a> {
    /// The model with its index, which takes memory for each name and none later.
    pub fn new(alloc: Global, model: &'a Model) -> Result<Names<'a>, AllocError>
        ensures { IfOk result (λ names. names.model.now ≡ model.now) }
    {
        let characteristics = places(alloc, model.characteristics.as_slice())?;
        let classes = places(alloc, model.classes.as_slice())?;
        let objects = places(alloc, model.objects.as_slice())?;
        let tables = places(alloc, model.tables.as_slice())?;
        let sizes = sizes_of(alloc, model.characteristics.as_slice())?;
        let members = rows_of(alloc, model.classes.as_slice())?;
        Ok(Names {
            model,
            characteristics,
            classes,
            objects,
            tables,
            sizes,
            members,
        })
    }

    /// The model.
    pub fn model(&self) -> &Model
        ensures { result.now ≡ self.now.model.now }
    {
        self.model
    }

    /// The number of the characteristic of this name.
    pub fn characteristic(&self, name: &[u8]) -> Option<u32>
        ensures { result ≡ looking.characteristic_named self.now.model.now name.now }
    {
        self.characteristics.find(name)
    }

    /// The number of the class of this name.
    pub fn class(&self, name: &[u8]) -> Option<u32>
        ensures { result ≡ looking.class_named self.now.model.now name.now }
    {
        self.classes.find(name)
    }

    /// The number of the object of this material.
    pub fn object(&self, material: &[u8]) -> Option<u32>
        ensures { result ≡ looking.object_named self.now.model.now material.now }
    {
        self.objects.find(material)
    }

    /// The table of this name.
    pub fn table(&self, name: &[u8]) -> Option<&Table>
        ensures { option_copied result ≡ looking.table_named self.now.model.now name.now }
    {
        match self.tables.find(name) {
            Some(number) => element(self.model.tables.as_slice(), number),
            None => None,
        }
    }

    /// The number of the class of an object.
    pub fn class_of(&self, object: Option<u32>) -> Option<u32>
        ensures { result ≡ looking.class_of self.now.model.now object }
    {
        match object {
            Some(object) => class_in(self.model.objects.as_slice().get(object as usize)),
            None => None,
        }
    }

    /// The number of the characteristic of this name that the class has.
    pub fn member_of(&self, name: &[u8], class: Option<u32>) -> Option<u32>
        ensures { result ≡ looking.member_of self.now.model.now name.now class }
    {
        match class {
            Some(class) => self.member_in(class, self.characteristic(name)),
            None => None,
        }
    }

    /// The characteristic, if the class has it.
    pub fn member_in(&self, class: u32, characteristic: Option<u32>) -> Option<u32>
        ensures { result ≡ looking.member_in (slice_get (self.now.model.now).classes class) characteristic }
    {
        match characteristic {
            Some(characteristic) => {
                if_flagged(element(self.members.as_slice(), class), characteristic)
            }
            None => None,
        }
    }

    /// The column of the table that is called so.
    pub fn column_in(&self, name: &[u8], table: Option<&Table>) -> Option<TableColumn>
        ensures { result ≡ looking.column_in self.now.model.now name.now (option_copied table.entry) }
    {
        match self.characteristic(name) {
            Some(characteristic) => column_of(table, characteristic),
            None => None,
        }
    }

    /// Whether the characteristic's values are texts or numbers.
    pub fn sort_of(&self, characteristic: u32) -> Option<Sort>
        ensures { result ≡ sort_of_characteristic self.now.model.now characteristic }
    {
        match self
            .model
            .characteristics
            .as_slice()
            .get(characteristic as usize)
        {
            Some(characteristic) => Some(sort_of_values(&characteristic.values)),
            None => None,
        }
    }

    /// Whether the characteristic has sets of texts.
    pub fn is_multiple(&self, characteristic: u32) -> bool
        ensures { result ≡ is_multiple self.now.model.now characteristic }
    {
        match self
            .model
            .characteristics
            .as_slice()
            .get(characteristic as usize)
        {
            Some(characteristic) => are_multiple(&characteristic.values),
            None => false,
        }
    }

    /// The largest size of a number of the characteristic, in millionths.
    pub fn size_of(&self, characteristic: u32) -> u64
        ensures { result ≡ size_in (slice_get (self.now.model.now).characteristics characteristic) }
    {
        match self.sizes.as_slice().get(characteristic as usize) {
            Some(size) => *size,
            None => 0,
        }
    }
}

fn element<T>(list: &[T], number: u32) -> Option<&T>
    ensures { option_copied result ≡ slice_get list.now number }
{
    list.get(number as usize)
}

fn class_in(object: Option<&Object>) -> Option<u32>
    ensures { result ≡ looking.class_in (option_copied object.entry) }
{
    match object {
        Some(object) => Some(object.class),
        None => None,
    }
}

fn column_among(columns: &[TableColumn], characteristic: u32) -> Option<TableColumn>
    ensures { result ≡ find (λ column. column.characteristic == characteristic) columns.now }
{
    for column in columns {
        if column.characteristic == characteristic {
            return Some(*column);
        }
    }
    None
}

fn column_of(table: Option<&Table>, characteristic: u32) -> Option<TableColumn>
    ensures { result ≡ looking.column_of (option_copied table.entry) characteristic }
{
    match table {
        Some(table) => column_among(table.columns.as_slice(), characteristic),
        None => None,
    }
}

fn sort_of_values(values: &Values) -> Sort
    ensures { result ≡ sort_of_values values.now }
{
    match values {
        Values::Texts { .. } => Sort::Texts,
        Values::Numbers { .. } => Sort::Numbers,
    }
}

fn are_multiple(values: &Values) -> bool
    ensures { result ≡ are_multiple values.now }
{
    match values {
        Values::Texts { multiple, .. } => *multiple,
        Values::Numbers { .. } => false,
    }
}

fn value_size(value: &NumberValue) -> u64
    ensures { result ≡ value_size value.now }
{
    let low = value.low.millionths.unsigned_abs();
    let high = value.high.millionths.unsigned_abs();
    low.max(high)
}

fn largest(values: &[NumberValue]) -> u64
    ensures { result ≡ largest values.now }
{
    let mut largest = 0;
    for value in values {
        largest = value_size(value).max(largest);
    }
    largest
}

fn size_of_values(values: &Values) -> u64
    ensures { result ≡ size_of_values values.now }
{
    match values {
        Values::Texts { .. } => 0,
        Values::Numbers { values, .. } => largest(values.as_slice()),
    }
}

fn sizes_of(alloc: Global, characteristics: &[Characteristic]) -> Result<Listed<u64>, AllocError>
    ensures { IfOk result (λ sizes. sizes ≡ map (λ c. size_of_values c.values) characteristics.now) }
{
    let mut sizes = Listed::new(alloc);
    for characteristic in characteristics {
        sizes.push(size_of_values(&characteristic.values))?;
    }
    Ok(sizes)
}
