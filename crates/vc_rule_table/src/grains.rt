//! Which grains the rows of a table have.

ghost use Rattle.std.specs.Prelude.{◌≡◌};
ghost use Rattle.vc_plan.specs.Domains.{is_grain_with};
ghost use Rattle.vc_plan.specs.Pieces.{lies_in};
ghost use Rattle.vc_plan.specs.TableRows.{cell_passes, columns_of, has_grain};

use crate::cells::grain_holds;
use crate::rows::{cell, is_column_of};
use vc_plan::{Binding, Plan};
use vc_plan_values::grains::domain_of;
use vc_value::Value;

fn is_grain_with(plan: &Plan, var: u32, value: Value, grain: usize) -> bool
    ensures { result ≡ is_grain_with plan.now var (lies_in value) grain }
{
    match domain_of(plan, var) {
        Some(domain) => grain_holds(domain, grain, value),
        None => false,
    }
}

fn lies_in_grain(plan: &Plan, var: u32, grain: usize, cell: Option<Value>) -> bool
    ensures { result ≡ cell_passes (λ a. is_grain_with plan.now var (lies_in a) grain) cell }
{
    match cell {
        Some(value) => is_grain_with(plan, var, value, grain),
        None => false,
    }
}

/// Whether all of the variable's columns have a cell in the grain.
pub fn has_grain(plan: &Plan, var: u32, columns: &[Binding], grain: usize, row: &[Value]) -> bool
    ensures { result ≡ has_grain plan.now var (columns_of var columns.now) grain row.now }
{
    let mut rest = columns;
    while let [column, more @ ..] = rest {
        if is_column_of(var, *column) && !lies_in_grain(plan, var, grain, cell(row, *column)) {
            return false;
        }
        rest = more;
    }
    true
}
