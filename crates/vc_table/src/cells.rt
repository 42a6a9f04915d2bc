//! The values that the fields of a record write, each in its column.

ghost use Rattle.std.specs.Prelude.{◌≡◌, ◌==◌, Some, length, option_map, IfOk};
ghost use Rattle.csv.specs.Records.{fields_of};
ghost use Rattle.vc_value.specs.Decimals.{read_number};
ghost use Rattle.vc_value.specs.declared.value.Value.TheVariants as values;
ghost use Rattle.vc_table.specs.Tables.{text_number, number_in, value_of, values_of, are_names};

use crate::text_index::TextIndex;
use csv::ByteRecord;
use std::alloc::{AllocError, Global};
use std::marker::Model;
use vc_value::{Column, Dec, Domain, GrainList, Value, equals_ignoring_case};

/// A column with an index of its texts, which a contract sees as the column.
#[derive(Drop)]
pub(crate) struct IndexedColumn<'a> {
    column: &'a Column,
    texts: TextIndex,
}

impl<'a> Model for IndexedColumn<'a> {
    ghost use Rattle.std.specs.Prelude.{◌≡◌, ℕ, List};
    ghost use Rattle.vc_value.specs.declared.table_header.Column.{Column as Seen};
    ghost use Rattle.vc_table.specs.Tables.{text_number};

    ghost Value = { Seen };

    ghost view = { λ c. c.column.now };

    ghost invariant = { λ c. (text : List ℕ) → text_number c.texts text ≡ text_number c.column.now.texts text };
}

impl<'a> IndexedColumn<'a> {
    fn new(alloc: Global, column: &'a Column) -> Result<IndexedColumn<'a>, AllocError>
        ensures { IfOk result (λ indexed. indexed ≡ column.now) }
    {
        let texts = TextIndex::new(alloc, column.texts.as_slice())?;
        Ok(IndexedColumn { column, texts })
    }

    // The value of the column's list that a field writes.
    fn value_of(&self, field: &[u8]) -> Option<Value>
        ensures { result ≡ value_of self.now field.now }
    {
        match &self.column.domain {
            Domain::Texts(_) => Some(Value::Text(self.texts.find(field)?)),
            Domain::Nums { decimals, grains } => number_in(*decimals, grains, field),
        }
    }
}

// The columns, each with an index of its texts.
pub(crate) fn index_columns<'a>(
    alloc: Global,
    columns: &'a [Column],
) -> Result<Vec<IndexedColumn<'a>>, AllocError>
    ensures { IfOk result (λ indexed. indexed.items ≡ columns.now) }
{
    let mut indexed = Vec::new(alloc);
    for column in columns {
        indexed.push(IndexedColumn::new(alloc, column)?)?;
    }
    Ok(indexed)
}

fn number_in(decimals: u8, grains: &GrainList, text: &[u8]) -> Option<Value>
    ensures { result ≡ number_in decimals grains.now (read_number text.now) }
{
    match Dec::read(text) {
        Ok(number) if number.has_decimals(decimals) && grains.find(number).is_some() => Some(
            Value::Num(number),
        ),
        _ => None,
    }
}

// The values that the fields of a record write, or none where one writes none.
pub(crate) fn values_of(
    alloc: Global,
    columns: &[IndexedColumn],
    row: &ByteRecord,
) -> Result<Option<Vec<Value>>, AllocError>
    requires { length (fields_of row.now) ≡ length columns.now }
    ensures { IfOk result (λ o. option_map (λ cells. cells.items) o ≡ values_of columns.now (fields_of row.now)) }
{
    let mut cells = Vec::new(alloc);
    for (index, column) in columns.iter().enumerate() {
        let Some(field) = row.get(index) else {
            return Ok(None);
        };
        let Some(value) = column.value_of(field) else {
            return Ok(None);
        };
        cells.push(value)?;
    }
    Ok(Some(cells))
}

// Whether the fields of a record are the names of the columns.
pub(crate) fn are_names(columns: &[Column], row: &ByteRecord) -> bool
    ensures { result ≡ are_names columns.now (fields_of row.now) }
{
    row.len() == columns.len() && fields_are_names(columns, row)
}

fn fields_are_names(columns: &[Column], row: &ByteRecord) -> bool
    requires { length (fields_of row.now) ≡ length columns.now }
    ensures { result ≡ are_names columns.now (fields_of row.now) }
{
    for (index, column) in columns.iter().enumerate() {
        match row.get(index) {
            Some(field) if equals_ignoring_case(column.name.bytes(), field) => {}
            _ => return false,
        }
    }
    true
}
