//! The tables of a model, each read from its file and checked before the next is looked for.

ghost use Rattle.std.specs.Prelude.{◌≡◌, ◌≢◌, ◌≤◌, ◌<◌, length, option_map, slice_get, IfOk, IfErr, Some, Ok, Err};
ghost use Rattle.vc_app_models.specs.Loading as loading;
ghost use Rattle.vc_app_models.specs.declared.stop.ModelStop.TheVariants as stops;

use crate::files::read_file;
use crate::stop::ModelStop;
use std::alloc::{AllocError, Global};
use std::str::from_utf8;
use vc_model_parts::{Model, header, table_count, table_file};
use vc_outside::{FileFault, Shelf};
use vc_table::{TableFault, VariantTable, read_table};
use vc_value::{Listed, Word};

// The rows of the table of this number that a text holds.
fn table_of(
    alloc: Global,
    model: &Model,
    number: u32,
    text: &[u8],
) -> Result<VariantTable, TableFault>
    requires { number < length model.now.tables }
    ensures ok { IfOk result (λ table. loading.rows_at model.now number text.now ≡ Some (Ok table.rows)) }
    ensures err { IfErr result (λ fault. fault ≢ TableFault.OutOfMemory
        → loading.rows_at model.now number text.now ≡ Some (Err fault)) }
{
    let header = header(alloc, model, number)?;
    let table = read_table(alloc, &header, text)?;
    Ok(table)
}

// The name of the table of this number.
fn table_name(model: &Model, number: u32) -> &Word
    requires { number < length model.now.tables }
    ensures { option_map (λ declared. declared.name) (slice_get model.now.tables number) ≡ Some result.now }
{
    &model.tables.as_slice()[number as usize].name
}

// That the file was not read.
fn unread(alloc: Global, file: &str, fault: FileFault) -> Result<ModelStop, AllocError>
    ensures { IfOk result (λ stop. stop ≡ stops.TableUnread file.now fault) }
{
    Ok(ModelStop::TableUnread {
        file: Word::from_bytes(alloc, file.as_bytes())?,
        fault,
    })
}

// That the table's file has no rows of it.
fn refused(alloc: Global, table: &Word, fault: TableFault) -> Result<ModelStop, AllocError>
    ensures { IfOk result (λ stop. stop ≡ loading.stop_at table.now fault) }
{
    match fault {
        TableFault::OutOfMemory => Ok(ModelStop::OutOfMemory),
        TableFault::Columns { row: _ }
        | TableFault::Cell { row: _ }
        | TableFault::DoubleKey { row: _ }
        | TableFault::TooManyRows => Ok(ModelStop::TableRefused {
            table: Word::from_bytes(alloc, table.bytes())?,
            fault,
        }),
    }
}

// The table of this number, read from its file. The name of the file is text in every model that a text spells;
// another has no file, and is told as want of memory.
fn load_table<F: Shelf>(
    alloc: Global,
    shelf: &mut F,
    model: &Model,
    number: u32,
) -> Result<VariantTable, ModelStop>
    requires { number < length model.now.tables }
    ensures table { IfOk result (loading.IsTableAt (F.files shelf.old) model.now number) }
    ensures stops { IfErr result (loading.IsTableStop (F.files shelf.old) (F.faults shelf.old)
        (F.faults shelf.new) model.now number) }
    ensures files { F.files shelf.new ≡ F.files shelf.old }
    ensures later { F.faults shelf.old ≤ F.faults shelf.new }
{
    let Ok(name) = from_utf8(table_file(model, number).bytes()) else {
        return Err(ModelStop::OutOfMemory);
    };
    let text = match read_file(alloc, shelf, name) {
        Ok(text) => text,
        Err(fault) => {
            let stop = unread(alloc, name, fault)?;
            return Err(stop);
        }
    };
    match table_of(alloc, model, number, text.bytes()) {
        Ok(table) => Ok(table),
        Err(fault) => {
            let stop = refused(alloc, table_name(model, number), fault)?;
            Err(stop)
        }
    }
}

/// The tables of the model, in its order. Numbers of tables end before 2^32: more of them take more memory than
/// there is.
pub(crate) fn load_tables<F: Shelf>(
    alloc: Global,
    shelf: &mut F,
    model: &Model,
) -> Result<Listed<VariantTable>, ModelStop>
    ensures tables { IfOk result (loading.AreTablesIn (F.files shelf.old) model.now model.now.tables) }
    ensures whole { IfOk result (λ tables. length tables ≡ length model.now.tables) }
    ensures stops { IfErr result (loading.IsTablesStop (F.files shelf.old) (F.faults shelf.old)
        (F.faults shelf.new) model.now) }
    ensures files { F.files shelf.new ≡ F.files shelf.old }
    ensures later { F.faults shelf.old ≤ F.faults shelf.new }
{
    let Ok(count) = u32::try_from(table_count(model)) else {
        return Err(ModelStop::OutOfMemory);
    };
    let mut tables = Listed::new(alloc);
    for number in 0..count {
        let table = load_table(alloc, shelf, model, number)?;
        tables.push(table)?;
    }
    Ok(tables)
}
