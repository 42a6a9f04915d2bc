//! The columns of a table call, at one row.

ghost use Rattle.std.specs.Prelude.{◌≡◌, ◌^◌, ◌<◌, ◌&&◌, slice_get};
ghost use Rattle.std.specs.List.{list_any};
ghost use Rattle.vc_plan.specs.Domains.{atom_count, is_grain_with};
ghost use Rattle.vc_plan.specs.Pieces.{lies_in, same_value};
ghost use Rattle.vc_plan.specs.Seen.{is_left};
ghost use Rattle.vc_plan.specs.TableRows.{cell_passes, columns_of, first_cell, fits, has_cell, has_grain, has_left};
ghost use Rattle.vc_plan.specs.TableRows.{is_column_of, is_possible, is_possible_in, other_columns};
ghost use Rattle.vc_check_table.specs.Columns.{fits_elsewhere, has_own_cell, has_own_grain};

use vc_check_board::values::same_value;
use vc_check_gives::grains_left::is_left;
use vc_plan::{Binding, Operand, Plan, View, element};
use vc_plan_values::grain_count;
use vc_plan_values::grains::holds;
use vc_value::Value;

/// Whether the column is given the variable.
pub fn is_column_of(var: u32, column: Binding) -> bool
    ensures { result ≡ is_column_of var column }
{
    match column.operand {
        Operand::Constant(_) => false,
        Operand::Variable(other) => var == other,
    }
}

/// Whether one of the columns is given the variable.
pub fn is_given(columns: &[Binding], var: u32) -> bool
    ensures { result ≡ list_any (is_column_of var) columns.now }
{
    let mut rest = columns;
    while let [column, more @ ..] = rest {
        if is_column_of(var, *column) {
            return true;
        }
        rest = more;
    }
    false
}

fn cell(row: &[Value], column: u32) -> Option<Value>
    ensures { result ≡ slice_get row.now column }
{
    match element(row, column) {
        Some(value) => Some(*value),
        None => None,
    }
}

fn left_holds<V: View>(plan: &Plan, view: &V, var: u32, value: Value, grain: u32) -> bool
    ensures { result ≡ is_left plan.now (V.seen view.now) var grain
        && is_grain_with plan.now var (lies_in value) grain }
{
    is_left(plan, view, var, grain) && holds(plan, var, value, grain)
}

#[tactic(auto, using(vc_base::proofs::RangeLaws::seeking))]
fn has_left<V: View>(plan: &Plan, view: &V, var: u32, value: Value) -> bool
    requires { atom_count plan.now < 2 ^ 32 }
    ensures { result ≡ has_left plan.now (V.seen view.now) var value }
{
    let count = grain_count(plan, var);
    let mut grain = 0;
    while grain < count {
        if left_holds(plan, view, var, value, grain) {
            return true;
        }
        grain += 1;
    }
    false
}

fn fits<V: View>(plan: &Plan, view: &V, operand: Operand, value: Value) -> bool
    requires { atom_count plan.now < 2 ^ 32 }
    ensures { result ≡ fits plan.now (V.seen view.now) operand value }
{
    match operand {
        Operand::Constant(literal) => same_value(literal, value),
        Operand::Variable(var) => has_left(plan, view, var, value),
    }
}

fn is_possible<V: View>(plan: &Plan, view: &V, row: &[Value], column: Binding) -> bool
    requires { atom_count plan.now < 2 ^ 32 }
    ensures { result ≡ is_possible plan.now (V.seen view.now) row.now column }
{
    match cell(row, column.column) {
        Some(value) => fits(plan, view, column.operand, value),
        None => false,
    }
}

/// Whether the row is possible in all columns.
pub fn is_possible_in<V: View>(plan: &Plan, view: &V, columns: &[Binding], row: &[Value]) -> bool
    requires { atom_count plan.now < 2 ^ 32 }
    ensures { result ≡ is_possible_in plan.now (V.seen view.now) columns.now row.now }
{
    let mut rest = columns;
    while let [column, more @ ..] = rest {
        if !is_possible(plan, view, row, *column) {
            return false;
        }
        rest = more;
    }
    true
}

fn fits_elsewhere<V: View>(plan: &Plan, view: &V, var: u32, row: &[Value], column: Binding) -> bool
    requires { atom_count plan.now < 2 ^ 32 }
    ensures { result ≡ fits_elsewhere plan.now (V.seen view.now) var row.now column }
{
    is_column_of(var, column) || is_possible(plan, view, row, column)
}

/// Whether the row is possible in all columns but the variable's.
#[tactic(auto, using(crate::proofs::ColumnLemmas::others_all))]
pub fn is_possible_elsewhere<V: View>(
    plan: &Plan,
    view: &V,
    var: u32,
    columns: &[Binding],
    row: &[Value],
) -> bool
    requires { atom_count plan.now < 2 ^ 32 }
    ensures { result ≡ is_possible_in plan.now (V.seen view.now) (other_columns var columns.now) row.now }
{
    let mut rest = columns;
    while let [column, more @ ..] = rest {
        if !fits_elsewhere(plan, view, var, row, *column) {
            return false;
        }
        rest = more;
    }
    true
}

fn cell_holds(plan: &Plan, var: u32, grain: u32, cell: Option<Value>) -> bool
    ensures { result ≡ cell_passes (λ a. is_grain_with plan.now var (lies_in a) grain) cell }
{
    match cell {
        Some(value) => holds(plan, var, value, grain),
        None => false,
    }
}

fn has_own_grain(plan: &Plan, var: u32, grain: u32, row: &[Value], column: Binding) -> bool
    ensures { result ≡ has_own_grain plan.now var grain row.now column }
{
    !is_column_of(var, column) || cell_holds(plan, var, grain, cell(row, column.column))
}

/// Whether all of the variable's columns have a cell in the grain.
#[tactic(auto, using(crate::proofs::ColumnLemmas::own_grains))]
pub fn has_grain(plan: &Plan, var: u32, columns: &[Binding], grain: u32, row: &[Value]) -> bool
    ensures { result ≡ has_grain plan.now var (columns_of var columns.now) grain row.now }
{
    let mut rest = columns;
    while let [column, more @ ..] = rest {
        if !has_own_grain(plan, var, grain, row, *column) {
            return false;
        }
        rest = more;
    }
    true
}

fn cell_is(value: Value, cell: Option<Value>) -> bool
    ensures { result ≡ cell_passes (same_value value) cell }
{
    match cell {
        Some(other) => same_value(value, other),
        None => false,
    }
}

fn has_own_cell(var: u32, value: Value, row: &[Value], column: Binding) -> bool
    ensures { result ≡ has_own_cell var value row.now column }
{
    !is_column_of(var, column) || cell_is(value, cell(row, column.column))
}

/// Whether all of the variable's columns have the cell.
#[tactic(auto, using(crate::proofs::ColumnLemmas::own_cells))]
pub fn has_cell(var: u32, columns: &[Binding], value: Value, row: &[Value]) -> bool
    ensures { result ≡ has_cell (columns_of var columns.now) value row.now }
{
    let mut rest = columns;
    while let [column, more @ ..] = rest {
        if !has_own_cell(var, value, row, *column) {
            return false;
        }
        rest = more;
    }
    true
}

/// The cell of the first of the variable's columns.
pub fn first_cell(var: u32, columns: &[Binding], row: &[Value]) -> Option<Value>
    ensures { result ≡ first_cell (columns_of var columns.now) row.now }
{
    let mut rest = columns;
    while let [column, more @ ..] = rest {
        if is_column_of(var, *column) {
            return cell(row, column.column);
        }
        rest = more;
    }
    None
}
