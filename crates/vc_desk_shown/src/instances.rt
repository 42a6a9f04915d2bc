//! The instances of a session that is settled, with their rows.

ghost use Rattle.std.specs.Prelude.{◌≡◌, ◌≤◌, ◌++◌, false, length, slice_index_or, OnOk, IfOk};
ghost use Rattle.vc_plan_users.specs.Choosing.{users_of};
ghost use Rattle.vc_plan_values.specs.Computing.{LiesInGrains};
ghost use Rattle.vc_session.specs.Sessions.{last_seen};
ghost use Rattle.vc_show_rows.specs.Fitting.{RowsFit};
ghost use Rattle.vc_desk_shown.specs.Shown as shown;

use std::alloc::{AllocError, Global};
use vc_plan::{Plan, View};
use vc_session::Session;
use vc_show_rows::{Row, put_instance, put_row, rows_of};
use vc_value::Word;

// Who gave the variable its value.
fn giver_of(session: &Session, var: u32) -> &'static str
    ensures { result.now ≡ shown.giver_of (users_of session.now.users) session.now.stages.overlay var }
{
    if session.users().value(var).is_some() {
        return "user";
    }
    match session.overlay().entry(var) {
        Some(written) if written.hard => "procedure",
        Some(_) => "default",
        None => "inferred",
    }
}

fn row_giver(session: &Session, row: &Row) -> &'static str
    ensures { result.now ≡ shown.row_giver (users_of session.now.users) session.now.stages.overlay row.now }
{
    match row {
        Row::Valued { var, value: _ } => giver_of(session, *var),
        Row::Asked { .. } | Row::Chosen { .. } => "",
    }
}

fn put_rows(
    alloc: Global,
    out: &mut Word,
    plan: &Plan,
    session: &Session,
    rows: &[Row],
) -> Result<(), AllocError>
    ensures { OnOk result (out.new ≡ out.old
        ++ shown.rows_text plan.now (users_of session.now.users) session.now.stages.overlay rows.now) }
{
    for row in rows {
        put_row(alloc, out, plan, row_giver(session, row).as_bytes(), row)?;
    }
    Ok(())
}

fn put_instance_rows(
    alloc: Global,
    out: &mut Word,
    plan: &Plan,
    session: &Session,
    slot: u32,
) -> Result<(), AllocError>
    requires fit { RowsFit plan.now }
    requires lies { LiesInGrains plan.now (last_seen session.now.stages) }
    ensures { OnOk result (out.new ≡ out.old
        ++ shown.instance_rows plan.now (users_of session.now.users) (last_seen session.now.stages)
        session.now.stages.overlay (slice_index_or session.now.stages.late slot false) slot) }
{
    put_instance(alloc, out, plan, slot, session.late(slot))?;
    let rows = rows_of(alloc, plan, session, slot)?;
    put_rows(alloc, out, plan, session, rows.as_slice())
}

fn put_if_here(
    alloc: Global,
    out: &mut Word,
    plan: &Plan,
    session: &Session,
    slot: u32,
) -> Result<(), AllocError>
    requires fit { RowsFit plan.now }
    requires lies { LiesInGrains plan.now (last_seen session.now.stages) }
    ensures { OnOk result (out.new ≡ out.old
        ++ shown.instance_if_here plan.now (users_of session.now.users) (last_seen session.now.stages)
        session.now.stages.overlay session.now.stages.late slot) }
{
    if session.here(slot) {
        put_instance_rows(alloc, out, plan, session, slot)
    } else {
        Ok(())
    }
}

/// All instances that are here, by slot, each with its rows.
pub fn instances(alloc: Global, plan: &Plan, session: &Session) -> Result<Word, AllocError>
    requires fit { RowsFit plan.now }
    requires slots { length plan.now.slots ≤ 40 }
    requires lies { LiesInGrains plan.now (last_seen session.now.stages) }
    ensures { IfOk result (λ text. text ≡ shown.instances_text plan.now (users_of session.now.users)
        (last_seen session.now.stages) session.now.stages.overlay session.now.stages.late) }
{
    let mut out = Word::new(alloc);
    for slot in 0..plan.slots.len() as u32 {
        put_if_here(alloc, &mut out, plan, session, slot)?;
    }
    Ok(out)
}
