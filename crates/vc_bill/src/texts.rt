//! How bills and routings are printed.

ghost use Rattle.std.specs.Prelude.{◌≡◌, ◌++◌, slice_get, IfOk, OnOk};
ghost use Rattle.std.specs.List.{flat_map};
ghost use Rattle.std.specs.Fmt.{decimal};
ghost use Rattle.vc_bill.specs.Texts as texts;

use crate::numbers::{put_decimal, put_digits};
use std::alloc::{AllocError, Global};
use vc_plan::{BillLine, Line, Operation, OperationLine, Plan, element};
use vc_value::{Dec, Word};

// Puts a number last, and a space.
fn put_number(out: &mut Word, number: u32) -> Result<(), AllocError>
    ensures { OnOk result (out.new ≡ out.old ++ texts.spaced (decimal number)) }
{
    put_digits(out, u64::from(number))?;
    out.append_text(" ")
}

// Puts a word last, and a space.
fn put_spaced(out: &mut Word, word: &[u8]) -> Result<(), AllocError>
    ensures { OnOk result (out.new ≡ out.old ++ texts.spaced word.now) }
{
    out.append(word)?;
    out.append_text(" ")
}

// The zeros before a number that make it four digits.
fn zeros(number: u32) -> &'static str
    ensures { result.now ≡ texts.zeros number }
{
    if number < 10 {
        "000"
    } else if number < 100 {
        "00"
    } else if number < 1_000 {
        "0"
    } else {
        ""
    }
}

fn put_four_digits(out: &mut Word, number: u32) -> Result<(), AllocError>
    ensures { OnOk result (out.new ≡ out.old ++ texts.spaced (texts.four_digits number)) }
{
    out.append_text(zeros(number))?;
    put_number(out, number)
}

fn put_amount(out: &mut Word, amount: Option<Dec>) -> Result<(), AllocError>
    ensures { OnOk result (out.new ≡ out.old ++ texts.amount_text amount) }
{
    match amount {
        Some(amount) => put_decimal(out, amount),
        None => out.append_text("?"),
    }
}

// Puts an amount with its unit last, and ends the line.
fn put_measured(out: &mut Word, amount: Option<Dec>, unit: &[u8]) -> Result<(), AllocError>
    ensures { OnOk result (out.new ≡ out.old ++ texts.measured amount unit.now) }
{
    put_amount(out, amount)?;
    out.append_text(" ")?;
    out.append(unit)?;
    out.append_text("\n")
}

fn put_bill_line(out: &mut Word, row: BillLine, line: &Line) -> Result<(), AllocError>
    ensures { OnOk result (out.new ≡ out.old ++ texts.bill_line row line.now) }
{
    put_number(out, u32::from(row.level))?;
    put_four_digits(out, line.item)?;
    put_spaced(out, line.material.bytes())?;
    put_measured(out, row.quantity, line.unit.bytes())
}

fn put_bill_row(out: &mut Word, plan: &Plan, row: BillLine) -> Result<(), AllocError>
    ensures { OnOk result (out.new ≡ out.old ++ texts.bill_row plan.now row) }
{
    match element(plan.lines.as_slice(), row.line) {
        Some(line) => put_bill_line(out, row, line),
        None => Ok(()),
    }
}

/// The text of a bill: a line for each, with its level, item, material, quantity and unit.
pub fn print_bill(alloc: Global, plan: &Plan, lines: &[BillLine]) -> Result<Word, AllocError>
    ensures { IfOk result (λ text. text ≡ texts.bill_text plan.now lines.now) }
{
    let mut out = Word::new(alloc);
    for row in lines {
        put_bill_row(&mut out, plan, *row)?;
    }
    Ok(out)
}

fn put_operation(
    out: &mut Word,
    row: OperationLine,
    operation: &Operation,
) -> Result<(), AllocError>
    ensures { OnOk result (out.new ≡ out.old ++ texts.operation_line row operation.now) }
{
    put_number(out, row.slot)?;
    put_four_digits(out, operation.number)?;
    put_spaced(out, operation.name.bytes())?;
    put_measured(out, row.time, operation.unit.bytes())
}

fn put_routing_row(out: &mut Word, plan: &Plan, row: OperationLine) -> Result<(), AllocError>
    ensures { OnOk result (out.new ≡ out.old ++ texts.routing_row plan.now row) }
{
    match element(plan.operations.as_slice(), row.operation) {
        Some(operation) => put_operation(out, row, operation),
        None => Ok(()),
    }
}

/// The text of a routing: a line for each operation, with its slot, number, centre, time and unit.
pub fn print_routing(
    alloc: Global,
    plan: &Plan,
    lines: &[OperationLine],
) -> Result<Word, AllocError>
    ensures { IfOk result (λ text. text ≡ texts.routing_text plan.now lines.now) }
{
    let mut out = Word::new(alloc);
    for row in lines {
        put_routing_row(&mut out, plan, *row)?;
    }
    Ok(out)
}
