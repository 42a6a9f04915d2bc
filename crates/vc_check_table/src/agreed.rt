//! The cell that all rows have for a variable which are possible elsewhere.

ghost use Rattle.std.specs.Prelude.{◌≡◌, ◌^◌, ◌<◌, find, IfNone, IfSome, None, Some};
ghost use Rattle.std.specs.List.{filter, list_all};
ghost use Rattle.vc_plan.specs.Answers.{value_atoms};
ghost use Rattle.vc_plan.specs.Domains.{atom_count};
ghost use Rattle.vc_plan.specs.TableRows.{agreed, columns_of, has_cell, value_if};
ghost use Rattle.vc_check_table.specs.Columns.{agreed_if, agrees, possible_elsewhere};

use crate::columns::{first_cell, has_cell, is_possible_elsewhere};
use vc_plan::{Binding, Plan, View};
use vc_plan_values::some_holds;
use vc_value::{Listed, Value};

fn first_possible<'a, V: View>(
    plan: &Plan,
    view: &V,
    var: u32,
    columns: &[Binding],
    rows: &'a [Listed<Value>],
) -> Option<&'a [Value]>
    requires { atom_count plan.now < 2 ^ 32 }
    ensures some { IfSome result (λ row. find (possible_elsewhere plan.now (V.seen view.now) var columns.now) rows.now
        ≡ Some row.now) }
    ensures none { IfNone result (find (possible_elsewhere plan.now (V.seen view.now) var columns.now) rows.now
        ≡ None) }
{
    let mut rest = rows;
    while let [row, more @ ..] = rest {
        if is_possible_elsewhere(plan, view, var, columns, row.as_slice()) {
            return Some(row.as_slice());
        }
        rest = more;
    }
    None
}

fn agrees<V: View>(
    plan: &Plan,
    view: &V,
    var: u32,
    columns: &[Binding],
    value: Value,
    row: &[Value],
) -> bool
    requires { atom_count plan.now < 2 ^ 32 }
    ensures { result ≡ agrees plan.now (V.seen view.now) var columns.now value row.now }
{
    has_cell(var, columns, value, row) || !is_possible_elsewhere(plan, view, var, columns, row)
}

#[tactic(auto, using(crate::proofs::ColumnLemmas::all_agree))]
fn all_agree<V: View>(
    plan: &Plan,
    view: &V,
    var: u32,
    columns: &[Binding],
    rows: &[Listed<Value>],
    value: Value,
) -> bool
    requires { atom_count plan.now < 2 ^ 32 }
    ensures { result ≡ list_all (has_cell (columns_of var columns.now) value)
        (filter (possible_elsewhere plan.now (V.seen view.now) var columns.now) rows.now) }
{
    let mut rest = rows;
    while let [row, more @ ..] = rest {
        if !agrees(plan, view, var, columns, value, row.as_slice()) {
            return false;
        }
        rest = more;
    }
    true
}

fn is_agreed<V: View>(
    plan: &Plan,
    view: &V,
    var: u32,
    columns: &[Binding],
    rows: &[Listed<Value>],
    value: Value,
) -> bool
    requires { atom_count plan.now < 2 ^ 32 }
    ensures { result ≡ agreed_if plan.now (V.seen view.now) var columns.now rows.now value }
{
    all_agree(plan, view, var, columns, rows, value) && some_holds(plan, var, value)
}

fn value_if_agreed<V: View>(
    plan: &Plan,
    view: &V,
    var: u32,
    columns: &[Binding],
    rows: &[Listed<Value>],
    value: Option<Value>,
) -> Option<Value>
    requires { atom_count plan.now < 2 ^ 32 }
    ensures { value_atoms var result
        ≡ value_if (agreed_if plan.now (V.seen view.now) var columns.now rows.now) var value }
{
    match value {
        Some(value) => {
            if is_agreed(plan, view, var, columns, rows, value) {
                Some(value)
            } else {
                None
            }
        }
        None => None,
    }
}

/// The cell that all rows have for the variable which are possible elsewhere, where it is in the variable's list.
pub fn agreed<V: View>(
    plan: &Plan,
    view: &V,
    var: u32,
    columns: &[Binding],
    rows: &[Listed<Value>],
) -> Option<Value>
    requires { atom_count plan.now < 2 ^ 32 }
    ensures { value_atoms var result ≡ agreed plan.now var (columns_of var columns.now)
        (filter (possible_elsewhere plan.now (V.seen view.now) var columns.now) rows.now) }
{
    match first_possible(plan, view, var, columns, rows) {
        Some(row) => {
            let value = first_cell(var, columns, row);
            value_if_agreed(plan, view, var, columns, rows, value)
        }
        None => None,
    }
}
