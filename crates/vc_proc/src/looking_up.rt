//! Looking up a row of a table by its keys.

ghost use Rattle.std.specs.Prelude.{◌≡◌, slice_get, IfNone, IfSome, None, Some};
ghost use Rattle.std.specs.List.{find};
ghost use Rattle.std.specs.Ordering.{is_lt};
ghost use Rattle.vc_plan.specs.Parts.{procedure_reading};
ghost use Rattle.vc_plan.specs.Seen.{is_value};
ghost use Rattle.vc_plan.specs.Statements.{has_key, has_keys, with_cell, with_cells, with_row};
ghost use Rattle.vc_plan.specs.TableRows.{rows_of};
ghost use Rattle.vc_plan.specs.Truth.{number_in};
ghost use Rattle.vc_plan_values.specs.Computing.{ArgumentFits, LiesInGrains, TermsFit};
ghost use Rattle.vc_plan_values.specs.Values.{meant, meant_if};
ghost use Rattle.vc_rule_readings.specs.Beside.{seen_beside};
ghost use Rattle.vc_rule_readings.specs.Summing.{SumsFit};
ghost use Rattle.vc_proc_look_ups.specs.LookUps.{AreLookUpsOf};
ghost use Rattle.vc_proc_look_ups.specs.Orders.{IsOrderOf, columns_of, row_in};
ghost use Rattle.vc_proc.specs.LookingUp.{IsPlaceAmong, compared_with};
ghost use Rattle.vc_proc.specs.Writing.{place_from};

use crate::overlay::Overlay;
use crate::writing::{Place, enter_hard};
use std::cmp::Ordering;
use vc_plan::{FilledColumn, KeyTerm, Plan, Reading, element};
use vc_plan_values::TermValue;
use vc_proc_look_ups::LookUps;
use vc_proc_look_ups::orders::row_at;
use vc_proc_look_ups::ranks::{compare, rank_at, value_rank};
use vc_rule_readings::procedure_value;
use vc_rule_table::rows::rows_of;
use vc_value::{Listed, Value};
use vc_value_wide::Wide;

fn is_same(value: TermValue, cell: Value) -> bool
    ensures { result ≡ is_value cell (Some (meant value)) }
{
    match (value, cell) {
        (TermValue::Text(text), Value::Text(other)) => other == text,
        (TermValue::Number(number), Value::Num(other)) => {
            Wide::from(other).millionths == number.millionths
        }
        _ => false,
    }
}

fn is_cell(value: Option<TermValue>, cell: Value) -> bool
    ensures { result ≡ is_value cell (meant_if value) }
{
    match value {
        Some(value) => is_same(value, cell),
        None => false,
    }
}

fn has_key<R: Reading>(
    plan: &Plan,
    stage: &R,
    overlay: &Overlay,
    row: &[Value],
    key: KeyTerm,
) -> bool
    requires fit { SumsFit plan.now }
    requires values { LiesInGrains plan.now (seen_beside (R.seen stage.now) overlay.now) }
    ensures { result ≡ has_key plan.now (procedure_reading plan.now (R.seen stage.now) overlay.now
        (R.holdings stage.now)) row.now key }
{
    match element(row, key.column) {
        Some(cell) => is_cell(procedure_value(plan, stage, overlay, key.term), *cell),
        None => false,
    }
}

fn has_keys<R: Reading>(
    plan: &Plan,
    stage: &R,
    overlay: &Overlay,
    keys: &[KeyTerm],
    row: &[Value],
) -> bool
    requires fit { SumsFit plan.now }
    requires values { LiesInGrains plan.now (seen_beside (R.seen stage.now) overlay.now) }
    ensures { result ≡ has_keys plan.now (procedure_reading plan.now (R.seen stage.now) overlay.now
        (R.holdings stage.now)) keys.now row.now }
{
    let mut rest = keys;
    while let [key, more @ ..] = rest {
        if !has_key(plan, stage, overlay, row, *key) {
            return false;
        }
        rest = more;
    }
    true
}

// The first row with the keys, by a walk through all.
fn find_by_walk<'a, R: Reading>(
    plan: &Plan,
    stage: &R,
    overlay: &Overlay,
    keys: &[KeyTerm],
    rows: &'a [Listed<Value>],
) -> Option<&'a [Value]>
    requires fit { SumsFit plan.now }
    requires values { LiesInGrains plan.now (seen_beside (R.seen stage.now) overlay.now) }
    ensures some { IfSome result (λ row. find (has_keys plan.now (procedure_reading plan.now (R.seen stage.now)
        overlay.now (R.holdings stage.now)) keys.now) rows.now ≡ Some row.now) }
    ensures none { IfNone result (find (has_keys plan.now (procedure_reading plan.now (R.seen stage.now)
        overlay.now (R.holdings stage.now)) keys.now) rows.now ≡ None) }
{
    let mut rest = rows;
    while let [row, more @ ..] = rest {
        if has_keys(plan, stage, overlay, keys, row.as_slice()) {
            return Some(row.as_slice());
        }
        rest = more;
    }
    None
}

// How a row stands to what is looked up: the first cell that isn't the value of its key's term decides.
fn compare_row<R: Reading>(
    plan: &Plan,
    stage: &R,
    overlay: &Overlay,
    keys: &[KeyTerm],
    row: &[Value],
) -> Ordering
    requires fit { SumsFit plan.now }
    requires values { LiesInGrains plan.now (seen_beside (R.seen stage.now) overlay.now) }
    ensures { result ≡ compared_with plan.now (procedure_reading plan.now (R.seen stage.now) overlay.now
        (R.holdings stage.now)) keys.now row.now }
{
    let mut rest = keys;
    while let [key, more @ ..] = rest {
        let value = procedure_value(plan, stage, overlay, key.term);
        let order = compare(rank_at(row, key.column), value_rank(value));
        if order.is_ne() {
            return order;
        }
        rest = more;
    }
    Ordering::Equal
}

fn is_before<R: Reading>(
    plan: &Plan,
    stage: &R,
    overlay: &Overlay,
    keys: &[KeyTerm],
    rows: &[Listed<Value>],
    number: u32,
) -> bool
    requires fit { SumsFit plan.now }
    requires values { LiesInGrains plan.now (seen_beside (R.seen stage.now) overlay.now) }
    ensures { result ≡ is_lt (compared_with plan.now (procedure_reading plan.now (R.seen stage.now) overlay.now
        (R.holdings stage.now)) keys.now (row_in (slice_get rows.now number))) }
{
    compare_row(plan, stage, overlay, keys, row_at(rows, number)).is_lt()
}

// The place in the order, by halves, up to which rows come before what is looked up, and from which on none does.
fn place_among<R: Reading>(
    plan: &Plan,
    stage: &R,
    overlay: &Overlay,
    keys: &[KeyTerm],
    rows: &[Listed<Value>],
    order: &[u32],
) -> usize
    requires fit { SumsFit plan.now }
    requires values { LiesInGrains plan.now (seen_beside (R.seen stage.now) overlay.now) }
    requires order { IsOrderOf rows.now (columns_of keys.now) order.now }
    ensures { IsPlaceAmong plan.now (procedure_reading plan.now (R.seen stage.now) overlay.now (R.holdings stage.now))
        keys.now rows.now order.now result }
{
    order.partition_point(|number| is_before(plan, stage, overlay, keys, rows, *number))
}

// The number at the place, if there is one.
fn number_at(order: &[u32], place: usize) -> Option<u32>
    ensures { result ≡ slice_get order.now place }
{
    match order.get(place) {
        Some(number) => Some(*number),
        None => None,
    }
}

// The first row with the keys, by the order of the rows.
fn find_by_halves<'a, R: Reading>(
    plan: &Plan,
    stage: &R,
    overlay: &Overlay,
    keys: &[KeyTerm],
    rows: &'a [Listed<Value>],
    order: &[u32],
) -> Option<&'a [Value]>
    requires fit { SumsFit plan.now }
    requires values { LiesInGrains plan.now (seen_beside (R.seen stage.now) overlay.now) }
    requires order { IsOrderOf rows.now (columns_of keys.now) order.now }
    ensures some { IfSome result (λ row. find (has_keys plan.now (procedure_reading plan.now (R.seen stage.now)
        overlay.now (R.holdings stage.now)) keys.now) rows.now ≡ Some row.now) }
    ensures none { IfNone result (find (has_keys plan.now (procedure_reading plan.now (R.seen stage.now)
        overlay.now (R.holdings stage.now)) keys.now) rows.now ≡ None) }
{
    let place = place_among(plan, stage, overlay, keys, rows, order);
    match number_at(order, place) {
        Some(number) => {
            let row = row_at(rows, number);
            if has_keys(plan, stage, overlay, keys, row) {
                Some(row)
            } else {
                None
            }
        }
        None => None,
    }
}

// The first row with the keys; by their order, where that is there.
fn find_row<'a, R: Reading>(
    plan: &'a Plan,
    look_ups: &LookUps,
    stage: &R,
    overlay: &Overlay,
    table: u32,
    keys: &[KeyTerm],
) -> Option<&'a [Value]>
    requires orders { AreLookUpsOf plan.now look_ups.now }
    requires fit { SumsFit plan.now }
    requires values { LiesInGrains plan.now (seen_beside (R.seen stage.now) overlay.now) }
    ensures some { IfSome result (λ row. find (has_keys plan.now (procedure_reading plan.now (R.seen stage.now)
        overlay.now (R.holdings stage.now)) keys.now) (rows_of plan.now table) ≡ Some row.now) }
    ensures none { IfNone result (find (has_keys plan.now (procedure_reading plan.now (R.seen stage.now)
        overlay.now (R.holdings stage.now)) keys.now) (rows_of plan.now table) ≡ None) }
{
    let rows = rows_of(plan, table);
    match look_ups.order_for(table, keys) {
        Some(order) => find_by_halves(plan, stage, overlay, keys, rows, order.rows.as_slice()),
        None => find_by_walk(plan, stage, overlay, keys, rows),
    }
}

fn of_cell(cell: Value) -> TermValue
    ensures is { meant result ≡ cell }
    ensures small { ArgumentFits (number_in (meant result)) }
{
    match cell {
        Value::Text(text) => TermValue::Text(text),
        Value::Num(number) => TermValue::Number(Wide::from(number)),
    }
}

fn fill(plan: &Plan, place: Place, row: &[Value], column: FilledColumn, overlay: &mut Overlay)
    requires { TermsFit plan.now }
    ensures { overlay.new ≡ with_cell plan.now (place_from place) column.var (slice_get row.now column.column)
        overlay.old }
{
    match element(row, column.column) {
        Some(cell) => enter_hard(plan, place, column.var, of_cell(*cell), overlay),
        None => {}
    }
}

fn fill_all(
    plan: &Plan,
    place: Place,
    row: &[Value],
    filled: &[FilledColumn],
    overlay: &mut Overlay,
)
    requires { TermsFit plan.now }
    ensures { overlay.new ≡ with_cells plan.now (place_from place) row.now filled.now overlay.old }
{
    let mut rest = filled;
    while let [column, more @ ..] = rest {
        fill(plan, place, row, *column, overlay);
        rest = more;
    }
}

/// Finds the row of the table that has the values of the terms in the keys' columns, and enters its cells in the
/// columns that are to be filled.
pub fn look_up<R: Reading>(
    plan: &Plan,
    look_ups: &LookUps,
    stage: &R,
    place: Place,
    table: u32,
    keys: &[KeyTerm],
    filled: &[FilledColumn],
    overlay: &mut Overlay,
)
    requires orders { AreLookUpsOf plan.now look_ups.now }
    requires fit { SumsFit plan.now }
    requires values { LiesInGrains plan.now (seen_beside (R.seen stage.now) overlay.old) }
    ensures { overlay.new ≡ with_row plan.now (place_from place) filled.now
        (find (has_keys plan.now (procedure_reading plan.now (R.seen stage.now) overlay.old (R.holdings stage.now))
        keys.now) (rows_of plan.now table)) overlay.old }
{
    match find_row(plan, look_ups, stage, &*overlay, table, keys) {
        Some(row) => fill_all(plan, place, row, filled, overlay),
        None => {}
    }
}
