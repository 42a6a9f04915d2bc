//! How an evaluation that is settled stands.

ghost use Rattle.std.specs.Prelude.{◌≡◌, None};
ghost use Rattle.vc_plan.specs.Readings.{full_reading};
ghost use Rattle.vc_plan.specs.Showing.{culprit_at, settled_status, status_by};
ghost use Rattle.vc_plan_values.specs.Computing.{LiesInGrains};
ghost use Rattle.vc_show.specs.Asking.{marked_of};
ghost use Rattle.vc_show.specs.Fitting.{ShownFits};

use crate::asking::has_open;
use crate::hiding::first_violated;
use vc_plan::{Culprit, Named, Plan, Reading, Status};

// Whom a violated precondition blames.
fn culprit_at(named: Named, dependency: u32) -> Culprit
    ensures { result ≡ culprit_at named dependency }
{
    match named {
        Named::Var(var) => Culprit::Hidden { dependency, var },
        Named::Set(set) => Culprit::HiddenSet { dependency, set },
    }
}

fn unviolated<R: Reading>(plan: &Plan, reading: &R, marked: &[u32]) -> Status
    requires fit { ShownFits plan.now }
    requires values { LiesInGrains plan.now (R.seen reading.now) }
    requires marked { marked.now ≡ marked_of plan.now }
    ensures { result ≡ status_by plan.now (R.seen reading.now)
        (full_reading plan.now (R.seen reading.now) (R.holdings reading.now)) None }
{
    if has_open(plan, reading, marked) {
        Status::Unfinished
    } else {
        Status::Complete
    }
}

/// How an evaluation stands of which no stage is broken: contradicted by the first precondition that is violated,
/// unfinished where something that must have a value has none, or complete. It is told the variables that are marked.
pub fn status_of<R: Reading>(plan: &Plan, reading: &R, marked: &[u32]) -> Status
    requires fit { ShownFits plan.now }
    requires values { LiesInGrains plan.now (R.seen reading.now) }
    requires marked { marked.now ≡ marked_of plan.now }
    ensures { result ≡ settled_status plan.now (R.seen reading.now)
        (full_reading plan.now (R.seen reading.now) (R.holdings reading.now)) }
{
    match first_violated(plan, reading) {
        Some(guard) => Status::Contradiction(culprit_at(guard.at, guard.dependency)),
        None => unviolated(plan, reading, marked),
    }
}
