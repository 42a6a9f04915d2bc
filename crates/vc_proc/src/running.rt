//! Running procedures.

ghost use Rattle.std.specs.Prelude.{◌≡◌, slice_get, Some};
ghost use Rattle.vc_plan.specs.Pieces.{lies_in};
ghost use Rattle.vc_plan.specs.TableRows.{cell_passes};
ghost use Rattle.vc_plan.specs.Writes.{is_triggered, run_procedure};
ghost use Rattle.vc_plan_values.specs.Computing.{LiesInGrains};
ghost use Rattle.vc_proc_look_ups.specs.LookUps.{AreLookUpsOf};
ghost use Rattle.vc_proc.specs.Overlays.{EntriesLie};
ghost use Rattle.vc_proc.specs.Stages.{CanRun};

use crate::overlay::Overlay;
use crate::statements::run_statements;
use vc_plan::{Piece, Plan, Procedure, Reading, Trigger, View, element};
use vc_plan_values::lies_in;
use vc_proc_look_ups::LookUps;
use vc_rule_readings::Beside;
use vc_value::Value;

fn value_lies_in(value: Option<Value>, piece: Piece) -> bool
    ensures { result ≡ cell_passes (λ a. lies_in a piece) value }
{
    match value {
        Some(value) => lies_in(value, piece),
        None => false,
    }
}

// Whether the procedure runs, by what it reads before its first statement.
fn is_triggered<R: Reading>(stage: &R, overlay: &Overlay, trigger: Trigger) -> bool
    ensures { result ≡ is_triggered (R.seen stage.now) (R.holdings stage.now) overlay.now trigger }
{
    match trigger {
        Trigger::Anyway => true,
        Trigger::ValueIn(var, piece) => {
            let beside = Beside {
                stage,
                written: overlay,
            };
            value_lies_in(beside.value(var), piece)
        }
        Trigger::TextIn { set, text } => stage.holds(set, text),
    }
}

fn run_whole<R: Reading>(
    plan: &Plan,
    look_ups: &LookUps,
    stage: &R,
    proc: u32,
    procedure: &Procedure,
    overlay: &mut Overlay,
)
    requires orders { AreLookUpsOf plan.now look_ups.now }
    requires can { CanRun plan.now }
    requires there { slice_get plan.now.procedures proc ≡ Some procedure.now }
    requires values { LiesInGrains plan.now (R.seen stage.now) }
    requires lie { EntriesLie plan.now overlay.old }
    ensures is { overlay.new ≡ run_procedure plan.now (R.seen stage.now) (R.holdings stage.now) proc
        (Some procedure.now) overlay.old }
    ensures lie { EntriesLie plan.now overlay.new }
{
    if is_triggered(stage, &*overlay, procedure.trigger) {
        run_statements(
            plan,
            look_ups,
            stage,
            proc,
            procedure.statements.as_slice(),
            overlay,
        );
    }
}

/// Runs the procedure of this number, if there is one.
pub fn run_procedure<R: Reading>(
    plan: &Plan,
    look_ups: &LookUps,
    stage: &R,
    proc: u32,
    overlay: &mut Overlay,
)
    requires orders { AreLookUpsOf plan.now look_ups.now }
    requires can { CanRun plan.now }
    requires values { LiesInGrains plan.now (R.seen stage.now) }
    requires lie { EntriesLie plan.now overlay.old }
    ensures is { overlay.new ≡ run_procedure plan.now (R.seen stage.now) (R.holdings stage.now) proc
        (slice_get plan.now.procedures proc) overlay.old }
    ensures lie { EntriesLie plan.now overlay.new }
{
    match element(plan.procedures.as_slice(), proc) {
        Some(procedure) => run_whole(plan, look_ups, stage, proc, procedure, overlay),
        None => {}
    }
}
