//! Rows of tables, and the columns that they don't fit in.

ghost use Rattle.std.specs.Prelude.{◌≡◌, slice_get};
ghost use Rattle.vc_plan.specs.TableRows.{rows_of, is_possible, is_column_of};
ghost use Rattle.vc_rule_table.specs.Cells.{FewGrains, is_given, columns_but};
ghost use Rattle.vc_rule_table.specs.Reasons.{first_misfit};
ghost use Rattle.vc_rule_table.specs.TableSaid.{has_column};

use crate::cells::fits;
use vc_plan::{Binding, Operand, Plan, View, element};
use vc_value::{Listed, Value};

/// The rows of the table; none where there is no such table.
pub fn rows_of(plan: &Plan, table: u32) -> &[Listed<Value>]
    ensures { result.now ≡ rows_of plan.now table }
{
    match element(plan.tables.as_slice(), table) {
        Some(table) => table.rows.as_slice(),
        None => &[],
    }
}

/// Whether the column is given the variable.
pub fn is_column_of(var: u32, column: Binding) -> bool
    ensures { result ≡ is_column_of var column }
{
    match column.operand {
        Operand::Constant(_) => false,
        Operand::Variable(other) => var == other,
    }
}

/// Whether a column is given the variable.
pub fn has_column(columns: &[Binding], var: u32) -> bool
    ensures { result ≡ has_column columns.now var }
{
    let mut rest = columns;
    while let [column, more @ ..] = rest {
        if is_column_of(var, *column) {
            return true;
        }
        rest = more;
    }
    false
}

/// Whether the column is given the variable, if one is named.
pub fn is_given(but: Option<u32>, column: Binding) -> bool
    ensures { result ≡ is_given but column }
{
    match but {
        Some(var) => is_column_of(var, column),
        None => false,
    }
}

/// The cell of the row in the column, if it is there.
pub fn cell(row: &[Value], column: Binding) -> Option<Value>
    ensures { result ≡ slice_get row.now column.column }
{
    match element(row, column.column) {
        Some(value) => Some(*value),
        None => None,
    }
}

fn is_possible<V: View>(plan: &Plan, view: &V, row: &[Value], column: Binding) -> bool
    requires few { FewGrains plan.now }
    ensures { result ≡ is_possible plan.now (V.seen view.now) row.now column }
{
    match cell(row, column) {
        Some(value) => fits(plan, view, column.operand, value),
        None => false,
    }
}

/// The first column in which the row isn't possible, but for those of a variable, if one is named.
pub fn first_misfit<V: View>(
    plan: &Plan,
    view: &V,
    columns: &[Binding],
    but: Option<u32>,
    row: &[Value],
) -> Option<Binding>
    requires few { FewGrains plan.now }
    ensures { result ≡ first_misfit plan.now (V.seen view.now) (columns_but but columns.now) row.now }
{
    let mut rest = columns;
    while let [column, more @ ..] = rest {
        if !is_given(but, *column) && !is_possible(plan, view, row, *column) {
            return Some(*column);
        }
        rest = more;
    }
    None
}
