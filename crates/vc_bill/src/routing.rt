//! The routing: the operations that are taken, by slot and number.

ghost use Rattle.std.specs.Prelude.{◌≡◌, ◌<◌, ◌^◌, ◌&&◌, ◌++◌, length, slice_get, IfOk, OnOk, Some};
ghost use Rattle.vc_plan.specs.Bills.{operation_line, routing_of, takes_operation};
ghost use Rattle.vc_plan.specs.Readings.{full_reading};
ghost use Rattle.vc_plan_values.specs.Computing.{LiesInGrains, TermsFit};
ghost use Rattle.vc_bill.specs.Fitting.{BillFits};
ghost use Rattle.vc_bill.specs.Walking.{taken_operation};

use crate::amounts::amount_at;
use crate::selecting::is_selected;
use std::alloc::{AllocError, Global};
use vc_plan::{Operation, OperationLine, Plan, Reading};
use vc_value::Listed;

// Whether an operation is taken: its instance is here, and its selection conditions let it be.
fn takes_operation<R: Reading>(plan: &Plan, reading: &R, operation: &Operation) -> bool
    requires fit { TermsFit plan.now }
    requires values { LiesInGrains plan.now (R.seen reading.now) }
    ensures { result ≡ takes_operation plan.now (R.seen reading.now)
        (full_reading plan.now (R.seen reading.now) (R.holdings reading.now)) (Some operation.now) }
{
    reading.here(operation.slot) && is_selected(plan, reading, operation.selections.as_slice())
}

fn put_operation<R: Reading>(
    plan: &Plan,
    reading: &R,
    out: &mut Listed<OperationLine>,
    operation: &Operation,
    number: u32,
) -> Result<(), AllocError>
    requires fit { TermsFit plan.now }
    requires values { LiesInGrains plan.now (R.seen reading.now) }
    ensures { OnOk result (out.new ≡ out.old ++ taken_operation plan.now (R.seen reading.now)
        (full_reading plan.now (R.seen reading.now) (R.holdings reading.now)) number (Some operation.now)) }
{
    if !takes_operation(plan, reading, operation) {
        return Ok(());
    }
    out.push(OperationLine {
        slot: operation.slot,
        operation: number,
        time: amount_at(plan, reading, operation.time),
    })
}

/// The routing: the operations that are taken, by slot and number.
pub fn operations<R: Reading>(
    alloc: Global,
    plan: &Plan,
    reading: &R,
) -> Result<Listed<OperationLine>, AllocError>
    requires fit { BillFits plan.now }
    requires values { LiesInGrains plan.now (R.seen reading.now) }
    ensures { IfOk result (λ rows. rows ≡ routing_of plan.now (R.seen reading.now)
        (full_reading plan.now (R.seen reading.now) (R.holdings reading.now))) }
{
    let mut out = Listed::new(alloc);
    for (number, operation) in plan.operations.as_slice().iter().enumerate() {
        put_operation(plan, reading, &mut out, operation, number as u32)?;
    }
    Ok(out)
}
