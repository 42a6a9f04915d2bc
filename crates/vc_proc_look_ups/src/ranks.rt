//! How the cells of rows stand to each other.

ghost use Rattle.std.specs.Prelude.{◌≡◌, slice_get, Some};
ghost use Rattle.vc_plan_values.specs.Values.{meant_if};
ghost use Rattle.vc_proc_look_ups.specs.Ranks.{cell_rank, compared, count_of, kind_of, rows_compared, value_rank};

use std::cmp::Ordering;
use vc_plan::element;
use vc_plan_values::TermValue;
use vc_value::Value;
use vc_value_wide::Wide;

/// Where a cell stands among others, or the value of a term among cells: what is missing comes first, then texts, then
/// numbers, and behind them a term without a value, which is like no cell.
#[derive(Clone, Copy, Debug, PartialEq, Eq)]
pub enum Rank {
    Missing,
    Text(u32),
    Number(Wide),
    Unknown,
}

fn kind(rank: Rank) -> u8
    ensures { result ≡ kind_of rank }
{
    match rank {
        Rank::Missing => 0,
        Rank::Text(_) => 1,
        Rank::Number(_) => 2,
        Rank::Unknown => 3,
    }
}

fn count(rank: Rank) -> i128
    ensures { result ≡ count_of rank }
{
    match rank {
        Rank::Missing => 0,
        Rank::Text(text) => text as i128,
        Rank::Number(number) => number.millionths,
        Rank::Unknown => 0,
    }
}

/// How a rank stands to another.
pub fn compare(rank: Rank, other: Rank) -> Ordering
    ensures { result ≡ compared rank other }
{
    kind(rank)
        .cmp(&kind(other))
        .then(count(rank).cmp(&count(other)))
}

fn cell_rank(cell: Value) -> Rank
    ensures { result ≡ cell_rank (Some cell) }
{
    match cell {
        Value::Text(text) => Rank::Text(text),
        Value::Num(number) => Rank::Number(Wide::from(number)),
    }
}

/// The rank of the row's cell in the column.
pub fn rank_at(row: &[Value], column: u32) -> Rank
    ensures { result ≡ cell_rank (slice_get row.now column) }
{
    match element(row, column) {
        Some(cell) => cell_rank(*cell),
        None => Rank::Missing,
    }
}

/// The rank of a term's value among cells.
pub fn value_rank(value: Option<TermValue>) -> Rank
    ensures { result ≡ value_rank (meant_if value) }
{
    match value {
        Some(TermValue::Text(text)) => Rank::Text(text),
        Some(TermValue::Number(number)) => Rank::Number(number),
        None => Rank::Unknown,
    }
}

/// How a row stands to another by its cells in the columns: the first column in which they differ decides.
pub fn compare_rows(columns: &[u32], row: &[Value], other: &[Value]) -> Ordering
    ensures { result ≡ rows_compared columns.now row.now other.now }
{
    let mut rest = columns;
    while let [column, more @ ..] = rest {
        let order = compare(rank_at(row, *column), rank_at(other, *column));
        if order.is_ne() {
            return order;
        }
        rest = more;
    }
    Ordering::Equal
}
