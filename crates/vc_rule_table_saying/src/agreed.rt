//! The cell that all possible rows of a table have for a variable.

ghost use Rattle.std.specs.Prelude.{◌≡◌, ◌&&◌, not, map, IfNone, IfSome, Some, None};
ghost use Rattle.std.specs.List.{filter, find, list_all};
ghost use Rattle.vc_plan.specs.Answers.{value_atoms};
ghost use Rattle.vc_plan.specs.Domains.{grains_in, grains_of};
ghost use Rattle.vc_plan.specs.Pieces.{lies_in_some, same_value};
ghost use Rattle.vc_plan.specs.Seen.{says};
ghost use Rattle.vc_plan.specs.TableRows.{columns_of, cell_passes, has_cell, value_if, agreed};
ghost use Rattle.vc_rule_premises.specs.Saying.{take_conclusions};
ghost use Rattle.vc_rule_table.specs.Cells.{FewGrains, agrees};
ghost use Rattle.vc_rule_table.specs.Noting.{HasNote};
ghost use Rattle.vc_rule_table.specs.TableSaid.{new_conclusions};
ghost use Rattle.vc_rule_table_saying.specs.Calls.{IsNoted, agreement, is_possible_for, reasons_of, rows_for};
ghost use Rattle.vc_rule_table_saying.specs.Sharing.{IsCiting, kept};

use crate::calls::NotedCall;
use crate::sharing::conclude_is;
use crate::skipping::{given_up, notes_past, rows_past};
use vc_plan::{Binding, Plan, View};
use vc_plan_values::grains::domain_of;
use vc_rule_table::cells::{grain_count, grain_holds};
use vc_rule_table::notes::{behind, first_note};
use vc_rule_table::rows::{cell, is_column_of};
use vc_rule_table_grains::keys::first_cell;
use vc_rule_table_grains::misfits::is_possible_in;
use vc_rule_yield::Yield;
use vc_rule_yield::atoms::same_value;
use vc_rule_yield::scratch::Note;
use vc_value::{Domain, Value};

// Whether the row is possible in the other columns.
fn is_possible_for<V: View>(
    call: &NotedCall<V>,
    var: u32,
    row: &[Value],
    note: Option<Note>,
) -> bool
    requires few { FewGrains call.now.plan.now }
    requires noted { HasNote call.now.plan.now (V.seen call.now.view.now) call.now.columns.now row.now note }
    ensures { result ≡ is_possible_for V.seen call.now var row.now }
{
    is_possible_in(call.plan, call.view, call.columns, Some(var), row, note)
}

fn first_possible<'a, V: View>(call: &NotedCall<'a, V>, var: u32) -> Option<&'a [Value]>
    requires call { IsNoted V.seen call.now }
    ensures some { IfSome result (λ row. find (is_possible_for V.seen call.now var) call.now.rows.now ≡ Some row.now) }
    ensures none { IfNone result (find (is_possible_for V.seen call.now var) call.now.rows.now ≡ None) }
{
    let front = given_up(call.columns, call.notes);
    let mut rest = rows_past(call.rows, front);
    let mut noted = notes_past(call.notes, front);
    while let [row, more @ ..] = rest {
        if is_possible_for(call, var, row.as_slice(), first_note(noted)) {
            return Some(row.as_slice());
        }
        let later = behind(noted);
        let skipped = given_up(call.columns, later);
        rest = rows_past(more, skipped);
        noted = notes_past(later, skipped);
    }
    None
}

fn is_cell(value: Value, cell: Option<Value>) -> bool
    ensures { result ≡ cell_passes (same_value value) cell }
{
    match cell {
        Some(other) => same_value(value, other),
        None => false,
    }
}

fn has_cell(columns: &[Binding], var: u32, value: Value, row: &[Value]) -> bool
    ensures { result ≡ has_cell (columns_of var columns.now) value row.now }
{
    let mut rest = columns;
    while let [column, more @ ..] = rest {
        if is_column_of(var, *column) && !is_cell(value, cell(row, *column)) {
            return false;
        }
        rest = more;
    }
    true
}

// Whether the row is possible in the other columns, and has another cell for the variable.
fn disagrees<V: View>(
    call: &NotedCall<V>,
    var: u32,
    value: Value,
    row: &[Value],
    note: Option<Note>,
) -> bool
    requires few { FewGrains call.now.plan.now }
    requires noted { HasNote call.now.plan.now (V.seen call.now.view.now) call.now.columns.now row.now note }
    ensures { result ≡ (is_possible_for V.seen call.now var row.now
        && not (has_cell (columns_of var call.now.columns.now) value row.now)) }
{
    is_possible_for(call, var, row, note) && !has_cell(call.columns, var, value, row)
}

fn all_agree<V: View>(call: &NotedCall<V>, var: u32, value: Value) -> bool
    requires call { IsNoted V.seen call.now }
    ensures { result ≡ list_all (has_cell (columns_of var call.now.columns.now) value) (rows_for V.seen call.now var) }
{
    let front = given_up(call.columns, call.notes);
    let mut rest = rows_past(call.rows, front);
    let mut noted = notes_past(call.notes, front);
    while let [row, more @ ..] = rest {
        if disagrees(call, var, value, row.as_slice(), first_note(noted)) {
            return false;
        }
        let later = behind(noted);
        let skipped = given_up(call.columns, later);
        rest = rows_past(more, skipped);
        noted = notes_past(later, skipped);
    }
    true
}

fn some_grain_holds(domain: &Domain, value: Value) -> bool
    ensures { result ≡ lies_in_some (grains_in (Some domain.now)) value }
{
    for grain in 0..grain_count(domain) {
        if grain_holds(domain, grain, value) {
            return true;
        }
    }
    false
}

fn is_listed(plan: &Plan, var: u32, value: Value) -> bool
    ensures { result ≡ lies_in_some (grains_of plan.now var) value }
{
    match domain_of(plan, var) {
        Some(domain) => some_grain_holds(domain, value),
        None => false,
    }
}

// The cell, if it is the variable's in all possible rows and in its list.
fn if_agreed<V: View>(call: &NotedCall<V>, var: u32, cell: Option<Value>) -> Option<Value>
    requires call { IsNoted V.seen call.now }
    ensures { value_atoms var result ≡ value_if (agrees call.now.plan.now var (columns_of var call.now.columns.now)
        (rows_for V.seen call.now var)) var cell }
{
    match cell {
        Some(value) => {
            if all_agree(call, var, value) && is_listed(call.plan, var, value) {
                Some(value)
            } else {
                None
            }
        }
        None => None,
    }
}

// The value, if the variable doesn't have it yet.
fn if_new<V: View>(view: &V, var: u32, value: Option<Value>) -> Option<Value>
    ensures { value_atoms var result ≡ filter (λ a. not (says (V.seen view.now) a)) (value_atoms var value) }
{
    match value {
        Some(value) => {
            if is_cell(value, view.value(var)) {
                None
            } else {
                Some(value)
            }
        }
        None => None,
    }
}

// The cell on which all possible rows agree, if the variable doesn't have it yet: this is asked first, as it costs no
// walk.
fn newly_agreed<V: View>(call: &NotedCall<V>, var: u32) -> Option<Value>
    requires call { IsNoted V.seen call.now }
    ensures { value_atoms var result ≡ filter (λ a. not (says (V.seen call.now.view.now) a))
        (agreed call.now.plan.now var (columns_of var call.now.columns.now) (rows_for V.seen call.now var)) }
{
    match first_possible(call, var) {
        Some(row) => {
            let cell = if_new(call.view, var, first_cell(call.columns, var, row));
            if_agreed(call, var, cell)
        }
        None => None,
    }
}

fn conclude_if<V: View>(
    call: &NotedCall<V>,
    var: u32,
    value: Option<Value>,
    base: usize,
    shared: bool,
    out: &mut Yield,
) -> bool
    requires call { IsNoted V.seen call.now }
    requires citing { IsCiting base (reasons_of V.seen call.now) shared out.old }
    ensures takes { kept base out.new ≡ take_conclusions (kept base out.old)
        (map (agreement V.seen call.now var) (value_atoms var value)) }
    ensures citing { IsCiting base (reasons_of V.seen call.now) result out.new }
{
    match value {
        Some(value) => conclude_is(call, var, value, base, shared, out),
        None => shared,
    }
}

/// Concludes that the variable has the cell on which all possible rows agree, if there is one. Why rows aren't possible
/// may be cited already, behind so many premises; whether it is afterwards.
pub fn conclude_agreed<V: View>(
    call: &NotedCall<V>,
    var: u32,
    base: usize,
    shared: bool,
    out: &mut Yield,
) -> bool
    requires call { IsNoted V.seen call.now }
    requires citing { IsCiting base (reasons_of V.seen call.now) shared out.old }
    ensures takes { kept base out.new ≡ take_conclusions (kept base out.old)
        (new_conclusions (V.seen call.now.view.now) (map (agreement V.seen call.now var)
        (agreed call.now.plan.now var (columns_of var call.now.columns.now) (rows_for V.seen call.now var)))) }
    ensures citing { IsCiting base (reasons_of V.seen call.now) result out.new }
{
    let value = newly_agreed(call, var);
    conclude_if(call, var, value, base, shared, out)
}
