//! The rows of a table, and which grains of a variable some of them keep.

ghost use Rattle.std.specs.Prelude.{◌≡◌, ◌^◌, ◌<◌};
ghost use Rattle.std.specs.List.{list_any};
ghost use Rattle.vc_plan.specs.Domains.{atom_count};
ghost use Rattle.vc_plan.specs.TableRows.{is_possible_in, rows_of};
ghost use Rattle.vc_check_table.specs.Columns.{keeps, row_keeps};

use crate::columns::{has_grain, is_possible_elsewhere, is_possible_in};
use vc_plan::{Binding, Plan, View, element};
use vc_value::{Listed, Value};

/// The rows of the table; none where there is no such table.
pub fn rows_of(plan: &Plan, table: u32) -> &[Listed<Value>]
    ensures { result.now ≡ rows_of plan.now table }
{
    match element(plan.tables.as_slice(), table) {
        Some(table) => table.rows.as_slice(),
        None => &[],
    }
}

/// Whether a row is possible in all columns.
pub fn some_is_possible<V: View>(
    plan: &Plan,
    view: &V,
    columns: &[Binding],
    rows: &[Listed<Value>],
) -> bool
    requires { atom_count plan.now < 2 ^ 32 }
    ensures { result ≡ list_any (is_possible_in plan.now (V.seen view.now) columns.now) rows.now }
{
    let mut rest = rows;
    while let [row, more @ ..] = rest {
        if is_possible_in(plan, view, columns, row.as_slice()) {
            return true;
        }
        rest = more;
    }
    false
}

fn row_keeps<V: View>(
    plan: &Plan,
    view: &V,
    var: u32,
    columns: &[Binding],
    grain: u32,
    row: &[Value],
) -> bool
    requires { atom_count plan.now < 2 ^ 32 }
    ensures { result ≡ row_keeps plan.now (V.seen view.now) var columns.now grain row.now }
{
    has_grain(plan, var, columns, grain, row)
        && is_possible_elsewhere(plan, view, var, columns, row)
}

/// Whether a row that is possible elsewhere has the grain.
pub fn keeps<V: View>(
    plan: &Plan,
    view: &V,
    var: u32,
    columns: &[Binding],
    rows: &[Listed<Value>],
    grain: u32,
) -> bool
    requires { atom_count plan.now < 2 ^ 32 }
    ensures { result ≡ keeps plan.now (V.seen view.now) var columns.now rows.now grain }
{
    let mut rest = rows;
    while let [row, more @ ..] = rest {
        if row_keeps(plan, view, var, columns, grain, row.as_slice()) {
            return true;
        }
        rest = more;
    }
    false
}
