//! Running the procedures of a stage.

ghost use Rattle.std.specs.Prelude.{◌≡◌, ℕ, ◌<◌, ◌≤◌, ◌&&◌, ◌==◌, not, false, true, if◌then◌else◌};
ghost use Rattle.std.specs.Prelude.{length, slice_get, Some};
ghost use Rattle.std.specs.Prelude.{slice_index_or};
ghost use Rattle.vc_plan.specs.Evaluate.{holds};
ghost use Rattle.vc_plan.specs.Valid.{IsValid};
ghost use Rattle.vc_plan.specs.Writes.{all_run, depth_of, is_at, procedures_at, run_procedure};
ghost use Rattle.vc_plan_users.specs.Choosing.{users_of};
ghost use Rattle.vc_plan_values.specs.Computing.{LiesInGrains};
ghost use Rattle.vc_rule_readings.specs.Finding.{stands_by};
ghost use Rattle.vc_proc_look_ups.specs.LookUps.{AreLookUpsOf};
ghost use Rattle.vc_proc.specs.Overlays.{EntriesLie};
ghost use Rattle.vc_proc.specs.Stages.{CanRun, depth_written, stage_written, sums_written};

use crate::overlay::Overlay;
use crate::running::run_procedure;
use crate::stage::Stage;
use crate::summing::is_summing;
use vc_plan::{Plan, Procedure, Reading, View, element, stages};
use vc_plan_users::UserValues;
use vc_proc_look_ups::LookUps;

// Whether the procedure of this number is one of the slot, of the summing ones or of the others.
fn is_at(plan: &Plan, summing: bool, slot: u32, proc: u32) -> bool
    ensures { result ≡ is_at plan.now summing slot (slice_get plan.now.procedures proc) }
{
    match element(plan.procedures.as_slice(), proc) {
        Some(procedure) => procedure.slot == slot && is_summing(plan, procedure) == summing,
        None => false,
    }
}

fn run_if_at<R: Reading>(
    plan: &Plan,
    look_ups: &LookUps,
    stage: &R,
    summing: bool,
    slot: u32,
    proc: u32,
    overlay: &mut Overlay,
)
    requires orders { AreLookUpsOf plan.now look_ups.now }
    requires can { CanRun plan.now }
    requires values { LiesInGrains plan.now (R.seen stage.now) }
    requires lie { EntriesLie plan.now overlay.old }
    ensures is { overlay.new ≡ (if is_at plan.now summing slot (slice_get plan.now.procedures proc)
        then run_procedure plan.now (R.seen stage.now) (R.holdings stage.now) proc (slice_get plan.now.procedures proc)
        overlay.old
        else overlay.old) }
    ensures lie { EntriesLie plan.now overlay.new }
{
    if is_at(plan, summing, slot, proc) {
        run_procedure(plan, look_ups, stage, proc, overlay);
    }
}

// Where the procedures of the slot begin: they come by their slots.
fn begin_of(procedures: &[Procedure], slot: u32) -> usize
    requires { stands_by (λ procedure. procedure.slot) procedures.now ≡ true }
    ensures bound { result ≤ length procedures.now }
    ensures before { (k : ℕ) (procedure : Procedure) → slice_get procedures.now k ≡ Some procedure → k < result
        → procedure.slot < slot }
{
    procedures.partition_point(|procedure| procedure.slot < slot)
}

// Where they end.
fn end_of(procedures: &[Procedure], slot: u32) -> usize
    requires { stands_by (λ procedure. procedure.slot) procedures.now ≡ true }
    ensures bound { result ≤ length procedures.now }
    ensures after { (k : ℕ) (procedure : Procedure) → slice_get procedures.now k ≡ Some procedure → result ≤ k
        → slot < procedure.slot }
{
    procedures.partition_point(|procedure| procedure.slot <= slot)
}

// Runs the slot's summing procedures, or its others, in their order.
fn run_slot<R: Reading>(
    plan: &Plan,
    look_ups: &LookUps,
    stage: &R,
    summing: bool,
    slot: u32,
    overlay: &mut Overlay,
)
    requires orders { AreLookUpsOf plan.now look_ups.now }
    requires can { CanRun plan.now }
    requires values { LiesInGrains plan.now (R.seen stage.now) }
    requires lie { EntriesLie plan.now overlay.old }
    ensures is { overlay.new ≡ all_run plan.now (R.seen stage.now) (R.holdings stage.now)
        (procedures_at plan.now summing slot) overlay.old }
    ensures lie { EntriesLie plan.now overlay.new }
{
    let procedures = plan.procedures.as_slice();
    let begin = begin_of(procedures, slot) as u32;
    let end = end_of(procedures, slot) as u32;
    for proc in begin..end {
        run_if_at(plan, look_ups, stage, summing, slot, proc, overlay);
    }
}

fn is_of_depth(plan: &Plan, depth: u32, slot: u32) -> bool
    ensures { result ≡ (depth_of plan.now slot == depth) }
{
    match element(plan.slots.as_slice(), slot) {
        Some(slot) => u32::from(slot.depth) == depth,
        None => 0 == depth,
    }
}

fn runs_at<R: Reading>(plan: &Plan, stage: &R, depth: u32, slot: u32) -> bool
    ensures { result ≡ ((depth_of plan.now slot == depth) && (R.seen stage.now).here slot) }
{
    is_of_depth(plan, depth, slot) && stage.here(slot)
}

fn run_at_depth<R: Reading>(
    plan: &Plan,
    look_ups: &LookUps,
    stage: &R,
    depth: u32,
    slot: u32,
    overlay: &mut Overlay,
)
    requires orders { AreLookUpsOf plan.now look_ups.now }
    requires can { CanRun plan.now }
    requires values { LiesInGrains plan.now (R.seen stage.now) }
    requires lie { EntriesLie plan.now overlay.old }
    ensures is { overlay.new ≡ (if (depth_of plan.now slot == depth) && (R.seen stage.now).here slot
        then all_run plan.now (R.seen stage.now) (R.holdings stage.now) (procedures_at plan.now false slot) overlay.old
        else overlay.old) }
    ensures lie { EntriesLie plan.now overlay.new }
{
    if runs_at(plan, stage, depth, slot) {
        run_slot(plan, look_ups, stage, false, slot, overlay);
    }
}

// Runs the procedures of the instances of a depth, by slot number.
#[tactic(auto, using(crate::proofs::RunLemmas::ascending))]
fn run_depth<R: Reading>(
    plan: &Plan,
    look_ups: &LookUps,
    stage: &R,
    depth: u32,
    overlay: &mut Overlay,
)
    requires orders { AreLookUpsOf plan.now look_ups.now }
    requires can { CanRun plan.now }
    requires values { LiesInGrains plan.now (R.seen stage.now) }
    requires lie { EntriesLie plan.now overlay.old }
    ensures is { overlay.new ≡ depth_written plan.now (R.holdings stage.now) depth (R.seen stage.now) overlay.old }
    ensures lie { EntriesLie plan.now overlay.new }
{
    for slot in 0..plan.slots.len() as u32 {
        run_at_depth(plan, look_ups, stage, depth, slot, overlay);
    }
}

#[tactic(auto, using(crate::proofs::OverlayLemmas::read_past))]
fn is_late(late: &[bool], slot: u32) -> bool
    ensures { result ≡ slice_index_or late.now slot false }
{
    match element(late, slot) {
        Some(flag) => *flag,
        None => false,
    }
}

fn sums_at<R: Reading>(stage: &R, late: &[bool], slot: u32) -> bool
    ensures { result ≡ ((R.seen stage.now).here slot && not (slice_index_or late.now slot false)) }
{
    stage.here(slot) && !is_late(late, slot)
}

fn run_sums_at<R: Reading>(
    plan: &Plan,
    look_ups: &LookUps,
    stage: &R,
    late: &[bool],
    slot: u32,
    overlay: &mut Overlay,
)
    requires orders { AreLookUpsOf plan.now look_ups.now }
    requires can { CanRun plan.now }
    requires values { LiesInGrains plan.now (R.seen stage.now) }
    requires lie { EntriesLie plan.now overlay.old }
    ensures is { overlay.new ≡ (if (R.seen stage.now).here slot && not (slice_index_or late.now slot false)
        then all_run plan.now (R.seen stage.now) (R.holdings stage.now) (procedures_at plan.now true slot) overlay.old
        else overlay.old) }
    ensures lie { EntriesLie plan.now overlay.new }
{
    if sums_at(stage, late, slot) {
        run_slot(plan, look_ups, stage, true, slot, overlay);
    }
}

// Runs the summing procedures of the instances without a flag, from the last slot to the first.
#[tactic(auto, using(crate::proofs::RunLemmas::descending))]
fn run_sums<R: Reading>(
    plan: &Plan,
    look_ups: &LookUps,
    stage: &R,
    late: &[bool],
    overlay: &mut Overlay,
)
    requires orders { AreLookUpsOf plan.now look_ups.now }
    requires can { CanRun plan.now }
    requires values { LiesInGrains plan.now (R.seen stage.now) }
    requires lie { EntriesLie plan.now overlay.old }
    ensures is { overlay.new ≡ sums_written plan.now (R.holdings stage.now) late.now (R.seen stage.now) overlay.old }
    ensures lie { EntriesLie plan.now overlay.new }
{
    let mut slot = plan.slots.len() as u32;
    while slot > 0 {
        slot -= 1;
        run_sums_at(plan, look_ups, stage, late, slot, overlay);
    }
}

/// The same of a plan of which procedures can run, by what is read in the stage before.
pub fn run<R: Reading>(
    plan: &Plan,
    look_ups: &LookUps,
    number: u32,
    stage: &R,
    late: &[bool],
    overlay: &mut Overlay,
)
    requires orders { AreLookUpsOf plan.now look_ups.now }
    requires can { CanRun plan.now }
    requires number { 0 < number }
    requires values { LiesInGrains plan.now (R.seen stage.now) }
    requires lie { EntriesLie plan.now overlay.old }
    ensures is { overlay.new ≡ stage_written plan.now (R.holdings stage.now) number late.now (R.seen stage.now)
        overlay.old }
    ensures lie { EntriesLie plan.now overlay.new }
{
    if number == stages(plan) - 1 {
        run_sums(plan, look_ups, stage, late, overlay);
    } else {
        run_depth(plan, look_ups, stage, number - 1, overlay);
    }
}

/// Runs the procedures between the stage before this one, which the view says, and this one: those of the instances of
/// one depth, or before the last stage the summing ones of all instances without a flag. The overlay is then what they
/// write. It takes no memory.
pub fn run_stage<V: View>(
    plan: &Plan,
    look_ups: &LookUps,
    stage: u32,
    view: &V,
    late: &[bool],
    users: &UserValues,
    overlay: &mut Overlay,
)
    requires orders { AreLookUpsOf plan.now look_ups.now }
    requires valid { IsValid plan.now }
    requires stage { 0 < stage }
    requires values { LiesInGrains plan.now (V.seen view.now) }
    requires lie { EntriesLie plan.now overlay.old }
    ensures is { overlay.new ≡ stage_written plan.now (holds (users_of users.now)) stage late.now (V.seen view.now)
        overlay.old }
    ensures lie { EntriesLie plan.now overlay.new }
{
    run(plan, look_ups, stage, &Stage { view, users }, late, overlay);
}
