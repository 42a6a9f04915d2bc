//! The bill: of each instance its lines that are taken, each followed by the bill of its component.

ghost use Rattle.std.specs.Prelude.{◌≡◌, ◌<◌, ◌≤◌, ◌+◌, ◌&&◌, ◌==◌, ◌++◌, length, map, slice_get, IfOk, OnOk};
ghost use Rattle.vc_plan.specs.Bills.{bill_from, bill_line, bill_of, component_of, is_line_of, takes_line};
ghost use Rattle.vc_plan.specs.Domains.{numbers_below};
ghost use Rattle.vc_plan.specs.Readings.{full_reading};
ghost use Rattle.vc_plan_values.specs.Computing.{LiesInGrains, TermsFit};
ghost use Rattle.vc_bill.specs.Fitting.{BillFits};
ghost use Rattle.vc_bill.specs.Walking.{line_bill};

use crate::amounts::quantity_of;
use crate::components::{component_at, components_of};
use crate::ranges::{end_of, first_of};
use crate::selecting::is_selected;
use std::alloc::{AllocError, Global};
use vc_plan::{BillLine, Line, Plan, Reading, element};
use vc_value::Listed;

// Whether a line is taken: a configurable one where its slot is here, another by its selection conditions.
fn takes_line<R: Reading>(plan: &Plan, reading: &R, line: &Line, component: Option<u32>) -> bool
    requires fit { TermsFit plan.now }
    requires values { LiesInGrains plan.now (R.seen reading.now) }
    ensures { result ≡ takes_line plan.now (R.seen reading.now)
        (full_reading plan.now (R.seen reading.now) (R.holdings reading.now)) line.now component }
{
    match component {
        Some(slot) => reading.here(slot),
        None => is_selected(plan, reading, line.selections.as_slice()),
    }
}

fn is_taken_of<R: Reading>(
    plan: &Plan,
    reading: &R,
    slot: u32,
    line: &Line,
    component: Option<u32>,
) -> bool
    requires fit { TermsFit plan.now }
    requires values { LiesInGrains plan.now (R.seen reading.now) }
    ensures { result ≡ (line.now.slot == slot) && takes_line plan.now (R.seen reading.now)
        (full_reading plan.now (R.seen reading.now) (R.holdings reading.now)) line.now component }
{
    line.slot == slot && takes_line(plan, reading, line, component)
}

// Whether the line of this number is one of the slot, and taken.
fn is_line_of<R: Reading>(
    plan: &Plan,
    reading: &R,
    slot: u32,
    number: u32,
    component: Option<u32>,
) -> bool
    requires fit { TermsFit plan.now }
    requires values { LiesInGrains plan.now (R.seen reading.now) }
    requires own { component ≡ component_of plan.now number }
    ensures { result ≡ is_line_of plan.now (R.seen reading.now)
        (full_reading plan.now (R.seen reading.now) (R.holdings reading.now)) slot number
        (slice_get plan.now.lines number) }
{
    match element(plan.lines.as_slice(), number) {
        Some(line) => is_taken_of(plan, reading, slot, line, component),
        None => false,
    }
}

fn bill_line<R: Reading>(plan: &Plan, reading: &R, level: u8, slot: u32, line: u32) -> BillLine
    requires fit { TermsFit plan.now }
    requires values { LiesInGrains plan.now (R.seen reading.now) }
    ensures { result ≡ bill_line plan.now
        (full_reading plan.now (R.seen reading.now) (R.holdings reading.now)) level slot line }
{
    BillLine {
        level,
        slot,
        line,
        quantity: quantity_of(plan, reading, line),
    }
}

// What is read for a bill, and which slots stand for configurable lines.
#[derive(Drop)]
struct Source<'a, R> {
    plan: &'a Plan,
    reading: &'a R,
    components: &'a [Option<u32>],
}

// Puts the line of this number last, if it is one of the slot and taken, and its component's bill of so many levels.
#[cycle(bills)]
fn put_line<R: Reading>(
    source: &Source<R>,
    out: &mut Listed<BillLine>,
    levels: u8,
    level: u8,
    slot: u32,
    line: u32,
) -> Result<(), AllocError>
    requires fit { BillFits source.now.plan.now }
    requires values { LiesInGrains source.now.plan.now (R.seen source.now.reading.now) }
    requires table { source.now.components.now ≡
        map (component_of source.now.plan.now) (numbers_below (length source.now.plan.now.lines)) }
    requires there { line < length source.now.plan.now.lines }
    requires room { level + levels < 255 }
    ensures { OnOk result (out.new ≡ out.old ++ line_bill source.now.plan.now (R.seen source.now.reading.now)
        (full_reading source.now.plan.now (R.seen source.now.reading.now) (R.holdings source.now.reading.now))
        levels level slot line) }
{
    let component = component_at(source.plan, source.components, line);
    if !is_line_of(source.plan, source.reading, slot, line, component) {
        return Ok(());
    }
    out.push(bill_line(source.plan, source.reading, level, slot, line))?;
    match component {
        Some(below) => put_bill(source, out, levels, level + 1, below),
        None => Ok(()),
    }
}

// Puts the slot's bill of so many levels last.
#[cycle(bills)]
fn put_bill<R: Reading>(
    source: &Source<R>,
    out: &mut Listed<BillLine>,
    levels: u8,
    level: u8,
    slot: u32,
) -> Result<(), AllocError>
    requires fit { BillFits source.now.plan.now }
    requires values { LiesInGrains source.now.plan.now (R.seen source.now.reading.now) }
    requires table { source.now.components.now ≡
        map (component_of source.now.plan.now) (numbers_below (length source.now.plan.now.lines)) }
    requires room { level + levels ≤ 255 }
    ensures { OnOk result (out.new ≡ out.old ++ bill_from source.now.plan.now (R.seen source.now.reading.now)
        (full_reading source.now.plan.now (R.seen source.now.reading.now) (R.holdings source.now.reading.now))
        levels level slot) }
{
    if levels == 0 {
        return Ok(());
    }
    let lines = source.plan.lines.as_slice();
    let end = end_of(lines, slot);
    let mut line = first_of(lines, slot);
    while line < end {
        put_line(source, out, levels - 1, level, slot, line as u32)?;
        line += 1;
    }
    Ok(())
}

/// The bill: the lines of the root that are taken, in item order, each followed by the bill of its component.
pub fn bill_lines<R: Reading>(
    alloc: Global,
    plan: &Plan,
    reading: &R,
) -> Result<Listed<BillLine>, AllocError>
    requires fit { BillFits plan.now }
    requires values { LiesInGrains plan.now (R.seen reading.now) }
    ensures { IfOk result (λ rows. rows ≡ bill_of plan.now (R.seen reading.now)
        (full_reading plan.now (R.seen reading.now) (R.holdings reading.now))) }
{
    let components = components_of(alloc, plan)?;
    let mut out = Listed::new(alloc);
    let source = Source {
        plan,
        reading,
        components: components.as_slice(),
    };
    put_bill(&source, &mut out, plan.slots.len() as u8, 1, 0)?;
    Ok(out)
}
