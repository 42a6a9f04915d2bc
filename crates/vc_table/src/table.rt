//! A variant table: rows of values, one for each column.

ghost use Rattle.std.specs.Prelude.{◌≡◌, ◌≢◌, ◌+◌, ◌≤◌, ◌&&◌, false, true, [], ◌∷◌, ◌++◌, length, map, IfOk, IfErr};
ghost use Rattle.csv.specs.Records.{fields_of};
ghost use Rattle.vc_table.specs.Faults.{number_of, row_of};
ghost use Rattle.vc_table.specs.Records.{records_of};
ghost use Rattle.vc_table.specs.Tables.{cells_of, has_keys, is_among, key_of, rows_from, rows_of};
ghost use Rattle.vc_table.specs.declared.table.TableFault.TheVariants as faults;

use crate::cells::{IndexedColumn, are_names, index_columns, values_of};
use crate::csv_records::all_records;
use crate::keys::{Keys, has_keys, key_of};
use csv::ByteRecord;
use std::alloc::{AllocError, Global};
use vc_value::{Column, Listed, TableHeader, Value};

/// The most rows that a table may have.
const MOST_ROWS: usize = 10_000;

/// A row: a value for each column.
#[derive(Debug, Drop)]
pub struct Row {
    pub cells: Listed<Value>,
}

/// The rows of a table in the order of its file.
#[derive(Debug, Drop)]
pub struct VariantTable {
    pub rows: Listed<Row>,
}

/// Why a file is no table. Rows are counted from 1, the names of the columns being the first.
#[derive(Clone, Copy, Debug, PartialEq, Eq)]
pub enum TableFault {
    /// Another number of fields, or in the first row other names, or no row at all.
    Columns { row: u32 },
    /// A field that is no value of its column.
    Cell { row: u32 },
    /// The key cells of an earlier row.
    DoubleKey { row: u32 },
    /// More than 10,000 rows below the first.
    TooManyRows,
    OutOfMemory,
}

impl TableFault {
    /// The fault's number, counted from 1; want of memory has none.
    pub fn number(self) -> Option<u8>
        ensures { result ≡ number_of self }
    {
        match self {
            TableFault::Columns { row: _ } => Some(1),
            TableFault::Cell { row: _ } => Some(2),
            TableFault::DoubleKey { row: _ } => Some(3),
            TableFault::TooManyRows => Some(4),
            TableFault::OutOfMemory => None,
        }
    }

    /// The row that has the fault, or 0 for one that no row has.
    pub fn row(self) -> u32
        ensures { result ≡ row_of self }
    {
        match self {
            TableFault::Columns { row }
            | TableFault::Cell { row }
            | TableFault::DoubleKey { row } => row,
            TableFault::TooManyRows | TableFault::OutOfMemory => 0,
        }
    }
}

impl From<AllocError> for TableFault {
    ghost from_gives = { λ _ fault. fault ≡ faults.OutOfMemory };

    fn from(_error: AllocError) -> TableFault {
        TableFault::OutOfMemory
    }
}

/// The table that the bytes write under the header. Too many rows are told first, and else the
/// first row with a fault.
pub fn read_table(
    alloc: Global,
    header: &TableHeader,
    bytes: &[u8],
) -> Result<VariantTable, TableFault>
    ensures ok { IfOk result (λ table. rows_of header.now.columns (records_of bytes.now) ≡ Ok table.rows) }
    ensures err { IfErr result (λ fault. fault ≢ TableFault.OutOfMemory → rows_of header.now.columns
        (records_of bytes.now) ≡ Err fault) }
{
    let Some(records) = all_records(alloc, bytes, MOST_ROWS + 1)? else {
        return Err(TableFault::TooManyRows);
    };
    let columns = header.columns.as_slice();
    match records.as_slice() {
        [names, records @ ..] if are_names(columns, names) => {
            let rows = read_rows(alloc, columns, records)?;
            Ok(VariantTable { rows })
        }
        _ => Err(TableFault::Columns { row: 1 }),
    }
}

// The rows below the names of the columns.
fn read_rows(
    alloc: Global,
    columns: &[Column],
    records: &[ByteRecord],
) -> Result<Listed<Row>, TableFault>
    requires { length records.now ≤ 10000 }
    ensures ok { IfOk result (λ rows. rows_from columns.now 2 [] (map fields_of records.now) ≡ Ok rows) }
    ensures err { IfErr result (λ fault. fault ≢ TableFault.OutOfMemory → rows_from columns.now 2 []
        (map fields_of records.now) ≡ Err fault) }
{
    let indexed = index_columns(alloc, columns)?;
    let mut rows = Listed::new(alloc);
    let mut keys = Keys::new(alloc);
    for (index, record) in records.iter().enumerate() {
        let number = index as u32 + 2;
        let cells = read_cells(alloc, &indexed, number, record)?;
        if repeats(alloc, columns, &mut keys, &cells)? {
            return Err(TableFault::DoubleKey { row: number });
        }
        rows.push(Row {
            cells: Listed::from_vec(cells),
        })?;
    }
    Ok(rows)
}

// The cells of one record.
fn read_cells(
    alloc: Global,
    columns: &[IndexedColumn],
    number: u32,
    row: &ByteRecord,
) -> Result<Vec<Value>, TableFault>
    ensures ok { IfOk result (λ cells. cells_of columns.now number (fields_of row.now) ≡ Ok cells.items) }
    ensures err { IfErr result (λ fault. fault ≢ TableFault.OutOfMemory → cells_of columns.now number
        (fields_of row.now) ≡ Err fault) }
{
    if row.len() != columns.len() {
        return Err(TableFault::Columns { row: number });
    }
    match values_of(alloc, columns, row)? {
        Some(cells) => Ok(cells),
        None => Err(TableFault::Cell { row: number }),
    }
}

// Whether the key cells are those of an earlier row; else they are kept.
fn repeats(
    alloc: Global,
    columns: &[Column],
    keys: &mut Keys,
    cells: &[Value],
) -> Result<bool, AllocError>
    ensures repeats { IfOk result (λ repeats. repeats
        ≡ (has_keys columns.now && is_among (key_of columns.now cells.now) keys.old)) }
    ensures kept { IfOk result (λ repeats. repeats ≡ false → has_keys columns.now ≡ true → keys.new
        ≡ keys.old ++ key_of columns.now cells.now ∷ []) }
{
    if !has_keys(columns) {
        return Ok(false);
    }
    let key = key_of(alloc, columns, cells)?;
    let fresh = keys.meet(key)?;
    Ok(!fresh)
}
