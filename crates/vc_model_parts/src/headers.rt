//! What the files of a model's tables must have.

ghost use Rattle.std.specs.Prelude.{◌≡◌, ◌==◌, ◌<◌, length, map, slice_get, option_map, IfOk, OnOk, Some, [], ◌++◌};
ghost use Rattle.std.specs.List.{position_or_len};
ghost use Rattle.vc_model_parts.specs.Headers as headers;

use crate::parts::{Characteristic, Model, NumberValue, Table, TableColumn, TextValue, Values};
use std::alloc::{AllocError, Global};
use vc_value::{Column, Domain, Entry, Grain, GrainList, Listed, TableHeader, Word};

fn copy_of(alloc: Global, word: &Word) -> Result<Word, AllocError>
    ensures { IfOk result (λ copy. copy ≡ word.now) }
{
    Word::from_bytes(alloc, word.bytes())
}

fn entry_of(alloc: Global, texts: &[Word], value: &TextValue) -> Result<Option<Entry>, AllocError>
    ensures { IfOk result (λ entry. entry ≡ headers.entry_of texts.now value.now) }
{
    match texts.get(value.text as usize) {
        Some(text) => Ok(Some(Entry {
            text: copy_of(alloc, text)?,
            number: value.text,
        })),
        None => Ok(None),
    }
}

fn entries_of(
    alloc: Global,
    texts: &[Word],
    values: &[TextValue],
) -> Result<Listed<Entry>, AllocError>
    ensures { IfOk result (λ entries. entries ≡ headers.entries_of texts.now values.now) }
{
    let mut entries = Listed::new(alloc);
    for value in values {
        if let Some(entry) = entry_of(alloc, texts, value)? {
            entries.push(entry)?;
        }
    }
    Ok(entries)
}

/// The texts that are listed, by their numbers.
pub fn numbers_of(alloc: Global, values: &[TextValue]) -> Result<Listed<u32>, AllocError>
    ensures { IfOk result (λ numbers. numbers ≡ map (λ value. value.text) values.now) }
{
    let mut numbers = Listed::new(alloc);
    for value in values {
        numbers.push(value.text)?;
    }
    Ok(numbers)
}

// Puts the value's interval last, where its numbers lie above all before it.
fn add_above(grains: &mut GrainList, value: &NumberValue) -> Result<(), AllocError>
    ensures { OnOk result (grains.new ≡ grains.old ++ headers.grain_above grains.old value.now) }
{
    if grains.count() > u32::MAX - 3 {
        return Err(AllocError);
    }
    let grain = Grain {
        low: value.low,
        high: value.high,
    };
    if value.low.millionths <= value.high.millionths && grains.ends_below(value.low) {
        grains.add(grain)?;
    }
    Ok(())
}

/// The intervals that are listed, each that lies above all before it.
pub fn grains_of(alloc: Global, values: &[NumberValue]) -> Result<GrainList, AllocError>
    ensures { IfOk result (λ grains. grains ≡ headers.grains_of [] values.now) }
{
    let mut grains = GrainList::new(alloc);
    for value in values {
        add_above(&mut grains, value)?;
    }
    Ok(grains)
}

/// The values of a characteristic as they are listed: of texts their numbers, of numbers an interval an entry.
pub fn domain_of(alloc: Global, values: &Values) -> Result<Domain, AllocError>
    ensures { IfOk result (λ domain. domain ≡ headers.domain_of values.now) }
{
    match values {
        Values::Texts { values, .. } => Ok(Domain::Texts(numbers_of(alloc, values.as_slice())?)),
        Values::Numbers {
            decimals,
            values,
            ..
        } => Ok(Domain::Nums {
            decimals: *decimals,
            grains: grains_of(alloc, values.as_slice())?,
        }),
    }
}

fn texts_of(alloc: Global, texts: &[Word], values: &Values) -> Result<Listed<Entry>, AllocError>
    ensures { IfOk result (λ entries. entries ≡ headers.texts_of texts.now values.now) }
{
    match values {
        Values::Texts { values, .. } => entries_of(alloc, texts, values.as_slice()),
        Values::Numbers { .. } => Ok(Listed::new(alloc)),
    }
}

fn column_from(
    alloc: Global,
    texts: &[Word],
    characteristic: &Characteristic,
    key: bool,
) -> Result<Column, AllocError>
    ensures { IfOk result (λ column. column ≡ headers.column_from texts.now key characteristic.now) }
{
    Ok(Column {
        name: copy_of(alloc, &characteristic.name)?,
        key,
        texts: texts_of(alloc, texts, &characteristic.values)?,
        domain: domain_of(alloc, &characteristic.values)?,
    })
}

fn column_of(
    alloc: Global,
    model: &Model,
    column: &TableColumn,
) -> Result<Option<Column>, AllocError>
    ensures { IfOk result (λ found. found ≡ headers.column_of model.now.texts model.now.characteristics column.now) }
{
    let characteristics = model.characteristics.as_slice();
    match characteristics.get(column.characteristic as usize) {
        Some(found) => Ok(Some(column_from(alloc, model.texts.as_slice(), found, column.key)?)),
        None => Ok(None),
    }
}

fn columns_of(
    alloc: Global,
    model: &Model,
    columns: &[TableColumn],
) -> Result<Listed<Column>, AllocError>
    ensures { IfOk result (λ found. found ≡ headers.columns_of model.now.texts model.now.characteristics columns.now) }
{
    let mut found = Listed::new(alloc);
    for column in columns {
        if let Some(column) = column_of(alloc, model, column)? {
            found.push(column)?;
        }
    }
    Ok(found)
}

fn header_of(alloc: Global, model: &Model, table: &Table) -> Result<TableHeader, AllocError>
    ensures { IfOk result (λ header. header ≡ headers.header_of model.now.texts model.now.characteristics table.now) }
{
    Ok(TableHeader {
        name: copy_of(alloc, &table.name)?,
        columns: columns_of(alloc, model, table.columns.as_slice())?,
    })
}

/// What the file of the table of this number must have: its columns in order, each with the values
/// of its characteristic.
pub fn header(alloc: Global, model: &Model, table: u32) -> Result<TableHeader, AllocError>
    requires { table < length model.now.tables }
    ensures { IfOk result (λ header. option_map (headers.header_of model.now.texts model.now.characteristics)
        (slice_get model.now.tables table) ≡ Some header) }
{
    header_of(alloc, model, &model.tables.as_slice()[table as usize])
}

/// The place of the first column of the characteristic, or else their count.
pub fn column_among(columns: &[TableColumn], characteristic: u32) -> usize
    ensures { result ≡ position_or_len (λ column. column.characteristic == characteristic) columns.now }
{
    for (place, column) in columns.iter().enumerate() {
        if column.characteristic == characteristic {
            return place;
        }
    }
    columns.len()
}

/// How many tables the model has.
pub fn table_count(model: &Model) -> usize
    ensures { result ≡ length model.now.tables }
{
    model.tables.len()
}

/// The name of the file of the table of this number.
pub fn table_file(model: &Model, table: u32) -> &Word
    requires { table < length model.now.tables }
    ensures { option_map (λ t. t.file) (slice_get model.now.tables table) ≡ Some result.now }
{
    &model.tables.as_slice()[table as usize].file
}
