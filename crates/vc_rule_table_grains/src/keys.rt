//! Keys of grains, and of rows by their cells of one variable.

ghost use Rattle.std.specs.Prelude.{◌≡◌, slice_get};
ghost use Rattle.vc_plan.specs.TableRows.{columns_of, first_cell};
ghost use Rattle.vc_rule_table_grains.specs.Keys.{IsApart, all_have_key, cell_key, grain_key, row_key, same_key};
ghost use Rattle.vc_rule_table_grains.specs.Keys.{value_key};

use vc_plan::Binding;
use vc_rule_table::rows::{cell, is_column_of};
use vc_value::{Domain, Value};

/// The cell of the first of the variable's columns.
pub fn first_cell(columns: &[Binding], var: u32, row: &[Value]) -> Option<Value>
    ensures { result ≡ first_cell (columns_of var columns.now) row.now }
{
    let mut rest = columns;
    while let [column, more @ ..] = rest {
        if is_column_of(var, *column) {
            return cell(row, *column);
        }
        rest = more;
    }
    None
}

/// Tells that a list of grains is apart; it does nothing.
pub fn are_apart(domain: &Domain)
    ensures { IsApart domain.now }
{
    if let Domain::Nums {
        decimals: _,
        grains,
    } = domain
    {
        let _count = grains.count();
    }
}

fn value_key(domain: &Domain, value: Value) -> Option<usize>
    ensures { result ≡ value_key domain.now value }
{
    match domain {
        Domain::Texts(_) => match value {
            Value::Text(text) => Some(text as usize),
            Value::Num(_) => None,
        },
        Domain::Nums {
            decimals: _,
            grains,
        } => match value {
            Value::Text(_) => None,
            Value::Num(number) => match grains.find(number) {
                Some(grain) => Some(grain as usize),
                None => None,
            },
        },
    }
}

fn cell_key(domain: &Domain, cell: Option<Value>) -> Option<usize>
    ensures { result ≡ cell_key domain.now cell }
{
    match cell {
        Some(value) => value_key(domain, value),
        None => None,
    }
}

/// The key of the grain, if there is one of this number.
pub fn grain_key(domain: &Domain, grain: usize) -> Option<usize>
    ensures { result ≡ grain_key domain.now grain }
{
    match domain {
        Domain::Texts(texts) => match texts.as_slice().get(grain) {
            Some(text) => Some(*text as usize),
            None => None,
        },
        Domain::Nums {
            decimals: _,
            grains,
        } => {
            if grain < grains.count() as usize {
                Some(grain)
            } else {
                None
            }
        }
    }
}

fn same_key(key: Option<usize>, other: Option<usize>) -> bool
    ensures { result ≡ same_key key other }
{
    match (key, other) {
        (Some(key), Some(other)) => other == key,
        _ => false,
    }
}

fn all_have_key(
    domain: &Domain,
    columns: &[Binding],
    var: u32,
    row: &[Value],
    key: Option<usize>,
) -> bool
    ensures { result ≡ all_have_key domain.now (columns_of var columns.now) row.now key }
{
    let mut rest = columns;
    while let [column, more @ ..] = rest {
        if is_column_of(var, *column) && !same_key(cell_key(domain, cell(row, *column)), key) {
            return false;
        }
        rest = more;
    }
    true
}

/// The key of the row, if its cells in all columns of the variable have one.
pub fn row_key(domain: &Domain, columns: &[Binding], var: u32, row: &[Value]) -> Option<usize>
    ensures { result ≡ row_key domain.now (columns_of var columns.now) row.now }
{
    let key = cell_key(domain, first_cell(columns, var, row));
    if all_have_key(domain, columns, var, row, key) {
        key
    } else {
        None
    }
}
