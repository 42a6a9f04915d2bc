//! Whether selection conditions let a line or an operation be taken.

ghost use Rattle.std.specs.Prelude.{◌≡◌};
ghost use Rattle.std.specs.List.{list_any};
ghost use Rattle.vc_plan.specs.Bills.{is_selected};
ghost use Rattle.vc_plan.specs.Kleene.{is_true};
ghost use Rattle.vc_plan.specs.Readings.{full_reading};
ghost use Rattle.vc_plan.specs.Truth.{truth_at};
ghost use Rattle.vc_plan_values.specs.Computing.{LiesInGrains, TermsFit};

use vc_plan::{Plan, Reading, Selection};
use vc_plan_values::is_true;
use vc_rule_readings::full_truth;

fn some_holds<R: Reading>(plan: &Plan, reading: &R, selections: &[Selection]) -> bool
    requires fit { TermsFit plan.now }
    requires values { LiesInGrains plan.now (R.seen reading.now) }
    ensures { result ≡ list_any (λ s. is_true (truth_at plan.now
        (full_reading plan.now (R.seen reading.now) (R.holdings reading.now)) s.condition)) selections.now }
{
    for selection in selections {
        if is_true(full_truth(plan, reading, selection.condition)) {
            return true;
        }
    }
    false
}

/// Whether there is no selection condition, or one of them is true.
#[tactic(auto, using(crate::proofs::SelectingLemmas::selected))]
pub fn is_selected<R: Reading>(plan: &Plan, reading: &R, selections: &[Selection]) -> bool
    requires fit { TermsFit plan.now }
    requires values { LiesInGrains plan.now (R.seen reading.now) }
    ensures { result ≡ is_selected plan.now
        (full_reading plan.now (R.seen reading.now) (R.holdings reading.now)) selections.now }
{
    selections.is_empty() || some_holds(plan, reading, selections)
}
