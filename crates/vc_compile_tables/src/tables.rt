//! Tables with their rows.

ghost use Rattle.std.specs.Prelude.{◌≡◌, ◌∷◌, [], ◌++◌, map, slice_get, IfOk, OnOk};
ghost use Rattle.std.specs.Option.{option_copied};
ghost use Rattle.vc_compile_plan.specs.Tables as kept;

use crate::copies::{copy_list, copy_word};
use std::alloc::{AllocError, Global};
use vc_model_parts::{Model, Table as Declared, TableColumn as DeclaredColumn};
use vc_plan::{Table, TableColumn};
use vc_table::{Row, VariantTable};
use vc_value::{Listed, Value};

fn columns_from(
    alloc: Global,
    columns: &[DeclaredColumn],
) -> Result<Listed<TableColumn>, AllocError>
    ensures { IfOk result (λ copy. copy ≡ map kept.column_from columns.now) }
{
    let mut copy = Listed::new(alloc);
    for column in columns {
        copy.push(TableColumn {
            characteristic: column.characteristic,
            key: column.key,
        })?;
    }
    Ok(copy)
}

fn rows_from(alloc: Global, rows: &[Row]) -> Result<Listed<Listed<Value>>, AllocError>
    ensures { IfOk result (λ copy. copy ≡ map (λ row. row.cells) rows.now) }
{
    let mut copy = Listed::new(alloc);
    for row in rows {
        copy.push(copy_list(alloc, row.cells.as_slice())?)?;
    }
    Ok(copy)
}

fn rows_in(alloc: Global, table: Option<&VariantTable>) -> Result<Listed<Listed<Value>>, AllocError>
    ensures { IfOk result (λ rows. rows ≡ kept.rows_in (option_copied table.entry)) }
{
    match table {
        Some(table) => rows_from(alloc, table.rows.as_slice()),
        None => Ok(Listed::new(alloc)),
    }
}

fn table_from(
    alloc: Global,
    table: &Declared,
    read: Option<&VariantTable>,
) -> Result<Table, AllocError>
    ensures { IfOk result (λ copy. copy ≡ kept.table_from table.now (option_copied read.entry)) }
{
    Ok(Table {
        name: copy_word(alloc, &table.name)?,
        columns: columns_from(alloc, table.columns.as_slice())?,
        rows: rows_in(alloc, read)?,
    })
}

// Puts the table of this number last, with the rows that were read for it.
fn push_table(
    alloc: Global,
    table: &Declared,
    read: &[VariantTable],
    number: usize,
    tables: &mut Listed<Table>,
) -> Result<(), AllocError>
    ensures { OnOk result (tables.new ≡ tables.old ++ kept.table_from table.now (slice_get read.now number) ∷ []) }
{
    let table = table_from(alloc, table, read.get(number))?;
    tables.push(table)
}

/// The tables of the model, by their numbers, each with the rows that were read for it.
pub fn tables_of(
    alloc: Global,
    model: &Model,
    read: &[VariantTable],
) -> Result<Listed<Table>, AllocError>
    ensures { IfOk result (λ tables. tables ≡ kept.tables_of model.now read.now) }
{
    let mut tables = Listed::new(alloc);
    for (number, table) in model.tables.as_slice().iter().enumerate() {
        push_table(alloc, table, read, number, &mut tables)?;
    }
    Ok(tables)
}
