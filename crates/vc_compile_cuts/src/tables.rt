//! The numbers at which the cells of tables cut characteristics.

ghost use Rattle.std.specs.Prelude.{◌≡◌, ◌++◌, flat_map, map, option_copied, slice_get, OnOk};
ghost use Rattle.vc_syntax_tree.specs.Trees.{binding_of, table_call_of, term_of};
ghost use Rattle.vc_types_meanings.specs.Seen.{seen};
ghost use Rattle.vc_types_occurrences.specs.Seen.{calls_seen};
ghost use Rattle.vc_compile_plan.specs.Cuts as cuts;
ghost use Rattle.vc_compile_plan.specs.Sites.{number_or_zero};
ghost use Rattle.vc_compile_plan.specs.Tables as held;
ghost use Rattle.vc_compile_plan.specs.Terms.{lone_of};
ghost use Rattle.vc_types.specs.Looking.{characteristic_named};
ghost use Rattle.vc_compile_cuts.specs.Marks.{marks_on, marks_seen};
ghost use Rattle.vc_compile_cuts.specs.Rows.{cells_in, Numbers};

use crate::marks::{Mark, characteristic_of};
use std::alloc::AllocError;
use vc_model_parts::{Table, column_among};
use vc_syntax_tree::{Binding, NameLeaf, TableCall, Term};
use vc_table::{Row, VariantTable};
use vc_types_meanings::Setting;
use vc_types_names::FirstNamed;
use vc_value::{Listed, Value};

/// The tables with their rows, and their numbers by their names.
#[derive(Clone, Copy)]
pub struct TableRows<'t> {
    pub tables: &'t [VariantTable],
    pub numbers: &'t FirstNamed<u32>,
}

// The rows of a table; none where there is no such table.
fn rows_of(tables: &[VariantTable], table: usize) -> &[Row]
    ensures { map (λ row. row.cells) result.now ≡ held.rows_in (slice_get tables.now table) }
{
    match tables.get(table) {
        Some(table) => table.rows.as_slice(),
        None => &[],
    }
}

fn put_cell(
    out: &mut Listed<Mark>,
    characteristic: u32,
    cell: Option<&Value>,
) -> Result<(), AllocError>
    ensures { OnOk result (marks_seen out.new ≡ marks_seen out.old
        ++ marks_on characteristic (flat_map cuts.cell_numbers (held.cell_in (option_copied cell.entry)))) }
{
    match cell {
        Some(Value::Num(number)) => out.push(Mark {
            characteristic,
            number: *number,
        }),
        Some(Value::Text(_)) => Ok(()),
        None => Ok(()),
    }
}

fn cell_at(row: &Row, column: usize) -> Option<&Value>
    ensures { option_copied result ≡ slice_get (row.now).cells column }
{
    row.cells.as_slice().get(column)
}

#[tactic(auto, using(crate::proofs::MarkLemmas::joins))]
fn put_cells(
    out: &mut Listed<Mark>,
    characteristic: u32,
    rows: &[Row],
    column: usize,
) -> Result<(), AllocError>
    ensures { OnOk result (marks_seen out.new ≡ marks_seen out.old
        ++ marks_on characteristic (flat_map cuts.cell_numbers (cells_in rows.now column))) }
{
    for row in rows {
        put_cell(out, characteristic, cell_at(row, column))?;
    }
    Ok(())
}

// The number of the table of this name; of no table where there is none.
fn table_number(setting: &Setting, numbers: &FirstNamed<u32>, name: &[u8]) -> usize
    requires { Numbers numbers.now (seen setting.now).model }
    ensures { result ≡ held.table_number (seen setting.now).model name.now }
{
    match numbers.find(name) {
        Some(number) => number as usize,
        None => setting.names().model().tables.len(),
    }
}

fn column_place(table: Option<&Table>, characteristic: u32) -> usize
    ensures { result ≡ held.column_place (option_copied table.entry) characteristic }
{
    match table {
        Some(table) => column_among(table.columns.as_slice(), characteristic),
        None => 0,
    }
}

fn number_or_zero(number: Option<u32>) -> u32
    ensures { result ≡ number_or_zero number }
{
    match number {
        Some(number) => number,
        None => 0,
    }
}

// The place of the column of this name in a table.
fn column_number(setting: &Setting, table: usize, column: &[u8]) -> usize
    ensures { result ≡ held.column_place (slice_get (seen setting.now).model.tables table)
        (number_or_zero (characteristic_named (seen setting.now).model column.now)) }
{
    let names = setting.names();
    let characteristic = number_or_zero(names.characteristic(column));
    column_place(names.model().tables.as_slice().get(table), characteristic)
}

// Puts the cells of a column as cuts of a characteristic, if there is one.
fn put_column(
    out: &mut Listed<Mark>,
    setting: &Setting,
    rows: &TableRows,
    characteristic: Option<u32>,
    table: &[u8],
    column: &[u8],
) -> Result<(), AllocError>
    requires { Numbers (rows.now).numbers.now (seen setting.now).model }
    ensures { OnOk result (marks_seen out.new ≡ marks_seen out.old
        ++ cuts.marks_at characteristic (flat_map cuts.cell_numbers (held.column_cells (rows.now).tables.now
        (held.table_number (seen setting.now).model table.now)
        (held.column_number (seen setting.now).model table.now column.now)))) }
{
    match characteristic {
        Some(characteristic) => {
            let table = table_number(setting, rows.numbers, table);
            let column = column_number(setting, table, column);
            put_cells(out, characteristic, rows_of(rows.tables, table), column)
        }
        None => Ok(()),
    }
}

fn put_given(
    out: &mut Listed<Mark>,
    setting: &Setting,
    rows: &TableRows,
    table: &NameLeaf,
    column: &NameLeaf,
    value: &Term,
) -> Result<(), AllocError>
    requires { Numbers (rows.now).numbers.now (seen setting.now).model }
    ensures { OnOk result (marks_seen out.new ≡ marks_seen out.old
        ++ cuts.marks_of (seen setting.now).model (seen setting.now).variables (lone_of (term_of value.now))
        (flat_map cuts.cell_numbers (held.column_cells (rows.now).tables.now
        (held.table_number (seen setting.now).model (table.now).name)
        (held.column_number (seen setting.now).model (table.now).name (column.now).name)))) }
{
    match value {
        Term::Operand(operand) => put_column(
            out,
            setting,
            rows,
            characteristic_of(setting, operand),
            table.name.bytes(),
            column.name.bytes(),
        ),
        _ => Ok(()),
    }
}

fn put_binding(
    out: &mut Listed<Mark>,
    setting: &Setting,
    rows: &TableRows,
    call: &TableCall,
    binding: &Binding,
) -> Result<(), AllocError>
    requires { Numbers (rows.now).numbers.now (seen setting.now).model }
    ensures { OnOk result (marks_seen out.new ≡ marks_seen out.old
        ++ cuts.binding_marks (seen setting.now).model (rows.now).tables.now (seen setting.now).variables
        (table_call_of call.now) (binding_of binding.now)) }
{
    put_given(
        out,
        setting,
        rows,
        &call.table,
        &binding.column,
        &binding.value,
    )
}

fn put_bindings(
    out: &mut Listed<Mark>,
    setting: &Setting,
    rows: &TableRows,
    call: &TableCall,
) -> Result<(), AllocError>
    requires { Numbers (rows.now).numbers.now (seen setting.now).model }
    ensures { OnOk result (marks_seen out.new ≡ marks_seen out.old
        ++ cuts.call_marks (seen setting.now).model (rows.now).tables.now (seen setting.now).variables
        (table_call_of call.now)) }
{
    for binding in call.bindings.as_slice() {
        put_binding(out, setting, rows, call, binding)?;
    }
    Ok(())
}

/// Puts the cells of the columns that calls name, as cuts of what is given to each.
pub fn put_calls(
    out: &mut Listed<Mark>,
    setting: &Setting,
    rows: &TableRows,
    calls: &[&TableCall],
) -> Result<(), AllocError>
    requires { Numbers (rows.now).numbers.now (seen setting.now).model }
    ensures { OnOk result (marks_seen out.new ≡ marks_seen out.old
        ++ flat_map (cuts.call_marks (seen setting.now).model (rows.now).tables.now (seen setting.now).variables)
        (calls_seen calls.now)) }
{
    for call in calls {
        put_bindings(out, setting, rows, *call)?;
    }
    Ok(())
}
