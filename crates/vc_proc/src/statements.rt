//! Running statements.

ghost use Rattle.std.specs.Prelude.{◌≡◌, ◌^◌, ◌<◌, length};
ghost use Rattle.vc_plan.specs.Kleene.{is_true};
ghost use Rattle.vc_plan.specs.Parts.{procedure_reading};
ghost use Rattle.vc_plan.specs.Statements.{acted, all_stated, stated, with_default, with_hard, with_value};
ghost use Rattle.vc_plan.specs.Statements.{without_default};
ghost use Rattle.vc_plan.specs.Truth.{number_of_value};
ghost use Rattle.vc_plan_values.specs.Computing.{ArgumentFits, LiesInGrains, TermsFit};
ghost use Rattle.vc_plan_values.specs.Values.{meant_if};
ghost use Rattle.vc_rule_table.specs.Cells.{FewGrains};
ghost use Rattle.vc_proc_look_ups.specs.LookUps.{AreLookUpsOf};
ghost use Rattle.vc_proc.specs.Overlays.{EntriesLie};
ghost use Rattle.vc_proc.specs.Stages.{CanRun};
ghost use Rattle.vc_proc.specs.Writing.{place_from};

use crate::looking_up::look_up;
use crate::overlay::Overlay;
use crate::writing::{Place, enter_default, enter_hard, take_default};
use vc_plan::{Action, Plan, Reading, Statement, View};
use vc_plan_values::{TermValue, is_true};
use vc_proc_look_ups::LookUps;
use vc_rule_readings::{procedure_truth, procedure_value};

fn assign(plan: &Plan, place: Place, var: u32, value: Option<TermValue>, overlay: &mut Overlay)
    requires fit { TermsFit plan.now }
    requires small { ArgumentFits (number_of_value (meant_if value)) }
    ensures { overlay.new ≡ with_value (with_hard plan.now (place_from place) var) (meant_if value) overlay.old }
{
    match value {
        Some(value) => enter_hard(plan, place, var, value, overlay),
        None => {}
    }
}

fn set_default<V: View>(
    plan: &Plan,
    view: &V,
    place: Place,
    var: u32,
    value: Option<TermValue>,
    overlay: &mut Overlay,
)
    requires fit { TermsFit plan.now }
    requires few { FewGrains plan.now }
    requires small { ArgumentFits (number_of_value (meant_if value)) }
    ensures { overlay.new ≡ with_value (with_default plan.now (V.seen view.now) (place_from place) var) (meant_if value)
        overlay.old }
{
    match value {
        Some(value) => enter_default(plan, view, place, var, value, overlay),
        None => {}
    }
}

fn delete_default(plan: &Plan, var: u32, value: Option<TermValue>, overlay: &mut Overlay)
    requires fit { TermsFit plan.now }
    requires small { ArgumentFits (number_of_value (meant_if value)) }
    requires lie { EntriesLie plan.now overlay.old }
    ensures { overlay.new ≡ with_value (without_default plan.now var) (meant_if value) overlay.old }
{
    match value {
        Some(value) => take_default(plan, var, value, overlay),
        None => {}
    }
}

#[tactic(auto, using(crate::proofs::LyingLemmas::lies_beside))]
fn act<R: Reading>(
    plan: &Plan,
    look_ups: &LookUps,
    stage: &R,
    place: Place,
    action: &Action,
    overlay: &mut Overlay,
)
    requires orders { AreLookUpsOf plan.now look_ups.now }
    requires can { CanRun plan.now }
    requires values { LiesInGrains plan.now (R.seen stage.now) }
    requires lie { EntriesLie plan.now overlay.old }
    ensures { overlay.new ≡ acted plan.now (R.seen stage.now) (procedure_reading plan.now (R.seen stage.now) overlay.old
        (R.holdings stage.now)) (place_from place) action.now overlay.old }
{
    match action {
        Action::Assign { var, term } => {
            let value = procedure_value(plan, stage, &*overlay, *term);
            assign(plan, place, *var, value, overlay);
        }
        Action::SetDefault { var, term } => {
            let value = procedure_value(plan, stage, &*overlay, *term);
            set_default(plan, stage, place, *var, value, overlay);
        }
        Action::DeleteDefault { var, term } => {
            let value = procedure_value(plan, stage, &*overlay, *term);
            delete_default(plan, *var, value, overlay);
        }
        Action::LookUp {
            table,
            keys,
            filled,
        } => look_up(
            plan,
            look_ups,
            stage,
            place,
            *table,
            keys.as_slice(),
            filled.as_slice(),
            overlay,
        ),
    }
}

// A statement acts where its condition is true.
#[tactic(auto, using(crate::proofs::LyingLemmas::lies_beside))]
fn state<R: Reading>(
    plan: &Plan,
    look_ups: &LookUps,
    stage: &R,
    place: Place,
    statement: &Statement,
    overlay: &mut Overlay,
)
    requires orders { AreLookUpsOf plan.now look_ups.now }
    requires can { CanRun plan.now }
    requires values { LiesInGrains plan.now (R.seen stage.now) }
    requires lie { EntriesLie plan.now overlay.old }
    ensures { overlay.new ≡ stated plan.now (R.seen stage.now) (R.holdings stage.now) (place_from place) statement.now
        overlay.old }
{
    if is_true(procedure_truth(plan, stage, &*overlay, statement.condition)) {
        act(plan, look_ups, stage, place, &statement.action, overlay);
    }
}

// What it writes lies in the grains.
fn run_statement<R: Reading>(
    plan: &Plan,
    look_ups: &LookUps,
    stage: &R,
    place: Place,
    statement: &Statement,
    overlay: &mut Overlay,
)
    requires orders { AreLookUpsOf plan.now look_ups.now }
    requires can { CanRun plan.now }
    requires values { LiesInGrains plan.now (R.seen stage.now) }
    requires lie { EntriesLie plan.now overlay.old }
    ensures is { overlay.new ≡ stated plan.now (R.seen stage.now) (R.holdings stage.now) (place_from place)
        statement.now overlay.old }
    ensures lie { EntriesLie plan.now overlay.new }
{
    state(plan, look_ups, stage, place, statement, overlay);
}

/// Runs the statements of the procedure in their order.
pub fn run_statements<R: Reading>(
    plan: &Plan,
    look_ups: &LookUps,
    stage: &R,
    proc: u32,
    statements: &[Statement],
    overlay: &mut Overlay,
)
    requires orders { AreLookUpsOf plan.now look_ups.now }
    requires can { CanRun plan.now }
    requires few { length statements.now < 2 ^ 32 }
    requires values { LiesInGrains plan.now (R.seen stage.now) }
    requires lie { EntriesLie plan.now overlay.old }
    ensures is { overlay.new ≡ all_stated plan.now (R.seen stage.now) (R.holdings stage.now) proc 0 statements.now
        overlay.old }
    ensures lie { EntriesLie plan.now overlay.new }
{
    for statement in 0..statements.len() {
        let place = Place {
            proc,
            statement: statement as u32,
        };
        run_statement(
            plan,
            look_ups,
            stage,
            place,
            &statements[statement],
            overlay,
        );
    }
}
