//! The rows of an instance: one for each characteristic of its class, but for those that are hidden without a value.

ghost use Rattle.std.specs.Prelude.{◌≡◌, ◌++◌, [], ◌∷◌, IfOk, OnOk, None};
ghost use Rattle.std.specs.List.{filter};
ghost use Rattle.vc_plan.specs.Readings.{full_reading};
ghost use Rattle.vc_plan.specs.declared.plans.Named.TheVariants.{Set, Var};
ghost use Rattle.vc_plan_values.specs.Computing.{LiesInGrains};
ghost use Rattle.vc_show_rows.specs.Fitting.{RowsFit};
ghost use Rattle.vc_show_rows.specs.Rows.{row_if, row_of, rows_of, set_row, var_row};

use crate::finding::{class_of, named_of};
use crate::grains::shown_pieces;
use std::alloc::{AllocError, Global};
use vc_plan::{Named, Piece, Plan, Reading};
use vc_plan_values::texts_of;
use vc_show::{hidden, required};
use vc_value::{Listed, Value};

/// What is told of a characteristic of an instance.
#[derive(Debug, Drop)]
pub enum Row {
    /// The value of a variable.
    Valued {
        var: u32,
        value: Value,
    },
    /// The values that are left of a variable and not hidden, and whether one is required.
    Asked {
        var: u32,
        pieces: Listed<Piece>,
        required: bool,
    },
    /// The texts of a set in the order of its list, and whether it has none and one is required.
    Chosen {
        set: u32,
        texts: Listed<u32>,
        required: bool,
    },
}

fn put_asked<R: Reading>(
    alloc: Global,
    plan: &Plan,
    reading: &R,
    out: &mut Listed<Row>,
    var: u32,
) -> Result<(), AllocError>
    requires fit { RowsFit plan.now }
    requires values { LiesInGrains plan.now (R.seen reading.now) }
    ensures { OnOk result (out.new ≡ out.old ++ var_row plan.now (R.seen reading.now)
        (full_reading plan.now (R.seen reading.now) (R.holdings reading.now)) var None) }
{
    if hidden(plan, reading, Named::Var(var)) {
        return Ok(());
    }
    let pieces = shown_pieces(alloc, plan, reading, var)?;
    let required = required(plan, reading, Named::Var(var));
    out.push(Row::Asked {
        var,
        pieces,
        required,
    })
}

fn put_var<R: Reading>(
    alloc: Global,
    plan: &Plan,
    reading: &R,
    out: &mut Listed<Row>,
    var: u32,
) -> Result<(), AllocError>
    requires fit { RowsFit plan.now }
    requires values { LiesInGrains plan.now (R.seen reading.now) }
    ensures { OnOk result (out.new ≡ out.old ++ row_of plan.now (R.seen reading.now)
        (full_reading plan.now (R.seen reading.now) (R.holdings reading.now)) (Var var)) }
{
    match reading.value(var) {
        Some(value) => out.push(Row::Valued { var, value }),
        None => put_asked(alloc, plan, reading, out, var),
    }
}

fn put_held<R: Reading>(
    reading: &R,
    out: &mut Listed<u32>,
    set: u32,
    text: u32,
) -> Result<(), AllocError>
    ensures { OnOk result (out.new ≡ out.old ++ filter (R.holdings reading.now set) (text ∷ [])) }
{
    if reading.holds(set, text) {
        return out.push(text);
    }
    Ok(())
}

fn held<R: Reading>(
    alloc: Global,
    reading: &R,
    set: u32,
    texts: &[u32],
) -> Result<Listed<u32>, AllocError>
    ensures { IfOk result (λ held. held ≡ filter (R.holdings reading.now set) texts.now) }
{
    let mut out = Listed::new(alloc);
    for text in texts {
        put_held(reading, &mut out, set, *text)?;
    }
    Ok(out)
}

fn put_empty<R: Reading>(
    alloc: Global,
    plan: &Plan,
    reading: &R,
    out: &mut Listed<Row>,
    set: u32,
) -> Result<(), AllocError>
    requires fit { RowsFit plan.now }
    requires values { LiesInGrains plan.now (R.seen reading.now) }
    ensures { OnOk result (out.new ≡ out.old ++ set_row plan.now
        (full_reading plan.now (R.seen reading.now) (R.holdings reading.now)) set []) }
{
    if hidden(plan, reading, Named::Set(set)) {
        return Ok(());
    }
    let texts = Listed::new(alloc);
    let required = required(plan, reading, Named::Set(set));
    out.push(Row::Chosen {
        set,
        texts,
        required,
    })
}

fn put_texts<R: Reading>(
    alloc: Global,
    plan: &Plan,
    reading: &R,
    out: &mut Listed<Row>,
    set: u32,
    texts: Listed<u32>,
) -> Result<(), AllocError>
    requires fit { RowsFit plan.now }
    requires values { LiesInGrains plan.now (R.seen reading.now) }
    ensures { OnOk result (out.new ≡ out.old ++ set_row plan.now
        (full_reading plan.now (R.seen reading.now) (R.holdings reading.now)) set texts) }
{
    if texts.is_empty() {
        return put_empty(alloc, plan, reading, out, set);
    }
    out.push(Row::Chosen {
        set,
        texts,
        required: false,
    })
}

fn put_set<R: Reading>(
    alloc: Global,
    plan: &Plan,
    reading: &R,
    out: &mut Listed<Row>,
    set: u32,
) -> Result<(), AllocError>
    requires fit { RowsFit plan.now }
    requires values { LiesInGrains plan.now (R.seen reading.now) }
    ensures { OnOk result (out.new ≡ out.old ++ row_of plan.now (R.seen reading.now)
        (full_reading plan.now (R.seen reading.now) (R.holdings reading.now)) (Set set)) }
{
    let texts = held(alloc, reading, set, texts_of(plan, set))?;
    put_texts(alloc, plan, reading, out, set, texts)
}

fn put_row<R: Reading>(
    alloc: Global,
    plan: &Plan,
    reading: &R,
    out: &mut Listed<Row>,
    named: Option<Named>,
) -> Result<(), AllocError>
    requires fit { RowsFit plan.now }
    requires values { LiesInGrains plan.now (R.seen reading.now) }
    ensures { OnOk result (out.new ≡ out.old ++ row_if plan.now (R.seen reading.now)
        (full_reading plan.now (R.seen reading.now) (R.holdings reading.now)) named) }
{
    match named {
        Some(Named::Var(var)) => put_var(alloc, plan, reading, out, var),
        Some(Named::Set(set)) => put_set(alloc, plan, reading, out, set),
        None => Ok(()),
    }
}

/// The rows of the slot's instance, in class order.
pub fn rows_of<R: Reading>(
    alloc: Global,
    plan: &Plan,
    reading: &R,
    slot: u32,
) -> Result<Listed<Row>, AllocError>
    requires fit { RowsFit plan.now }
    requires values { LiesInGrains plan.now (R.seen reading.now) }
    ensures { IfOk result (λ rows. rows ≡ rows_of plan.now (R.seen reading.now)
        (full_reading plan.now (R.seen reading.now) (R.holdings reading.now)) slot) }
{
    let mut out = Listed::new(alloc);
    for characteristic in class_of(plan, slot) {
        put_row(
            alloc,
            plan,
            reading,
            &mut out,
            named_of(plan, slot, *characteristic),
        )?;
    }
    Ok(out)
}
