//! A table's rows in the order of their cells in some of its columns.

ghost use Rattle.std.specs.Prelude.{◌≡◌, ◌<◌, ◌^◌, length, slice_get, IfOk, IsPermutation, IsSorted};
ghost use Rattle.vc_plan.specs.Domains.{numbers_below};
ghost use Rattle.vc_proc_look_ups.specs.Orders.{IsOrderOf, are_columns_of, columns_of, numbers_compared, row_in};

use crate::ranks::compare_rows;
use std::alloc::{AllocError, Global};
use std::cmp::Ordering;
use vc_plan::{KeyTerm, element};
use vc_value::{Listed, Value};

/// The numbers of a table's rows, in the order of the rows' cells in these columns. Rows with the same cells there
/// stand as in the table.
#[derive(Debug, Drop)]
pub struct Order {
    pub table: u32,
    pub columns: Listed<u32>,
    pub rows: Listed<u32>,
}

/// The row of this number; one without cells, if there is none.
pub fn row_at(rows: &[Listed<Value>], number: u32) -> &[Value]
    ensures { result.now ≡ row_in (slice_get rows.now number) }
{
    match element(rows, number) {
        Some(row) => row.as_slice(),
        None => &[],
    }
}

// How the row of a number stands to that of another; where their cells are the same, their numbers decide.
fn compare_numbers(rows: &[Listed<Value>], columns: &[u32], number: u32, other: u32) -> Ordering
    ensures { result ≡ numbers_compared rows.now columns.now number other }
{
    compare_rows(columns, row_at(rows, number), row_at(rows, other)).then(number.cmp(&other))
}

fn numbers_below(alloc: Global, count: usize) -> Result<Vec<u32>, AllocError>
    requires { count < 2 ^ 32 }
    ensures { IfOk result (λ numbers. numbers.items ≡ numbers_below count) }
{
    let mut numbers = Vec::with_capacity(alloc, count)?;
    for number in 0..count {
        numbers.push(number as u32)?;
    }
    Ok(numbers)
}

fn sort(rows: &[Listed<Value>], columns: &[u32], numbers: &mut Vec<u32>)
    ensures all { IsPermutation numbers.old.items numbers.new.items }
    ensures sorted { IsSorted (numbers_compared rows.now columns.now) numbers.new.items }
{
    numbers.sort_unstable_by(|a, b| compare_numbers(rows, columns, *a, *b));
}

/// The numbers of the rows in the order of their cells in the columns.
pub fn order_of(
    alloc: Global,
    rows: &[Listed<Value>],
    columns: &[u32],
) -> Result<Listed<u32>, AllocError>
    requires { length rows.now < 2 ^ 32 }
    ensures { IfOk result (λ order. IsOrderOf rows.now columns.now order) }
{
    let mut numbers = numbers_below(alloc, rows.len())?;
    sort(rows, columns, &mut numbers);
    Ok(Listed::from_vec(numbers))
}

/// The columns of the keys.
pub fn columns_of(alloc: Global, keys: &[KeyTerm]) -> Result<Listed<u32>, AllocError>
    ensures { IfOk result (λ columns. columns ≡ columns_of keys.now) }
{
    let mut columns = Listed::new(alloc);
    for key in keys {
        columns.push(key.column)?;
    }
    Ok(columns)
}

fn are_columns_of(columns: &[u32], keys: &[KeyTerm]) -> bool
    ensures { result ≡ are_columns_of columns.now keys.now }
{
    if columns.len() != keys.len() {
        return false;
    }
    for place in 0..keys.len() {
        if columns[place] != keys[place].column {
            return false;
        }
    }
    true
}

impl Order {
    ghost use Rattle.std.specs.Prelude.{◌≡◌};
    ghost use Rattle.vc_proc_look_ups.specs.Orders.{is_for};

    /// Whether these are the rows of the table in the order of the columns of the keys.
    pub fn is_for(&self, table: u32, keys: &[KeyTerm]) -> bool
        ensures { result ≡ is_for table keys.now self.now }
    {
        self.table == table && are_columns_of(self.columns.as_slice(), keys)
    }
}
