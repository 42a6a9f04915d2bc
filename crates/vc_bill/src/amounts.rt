//! Quantities and times.

ghost use Rattle.std.specs.Prelude.{◌≡◌};
ghost use Rattle.vc_plan.specs.Bills.{stored};
ghost use Rattle.vc_plan.specs.Parts.{amount_at, quantity_of};
ghost use Rattle.vc_plan.specs.Readings.{full_reading};
ghost use Rattle.vc_plan_values.specs.Computing.{LiesInGrains, TermsFit};

use vc_plan::{Plan, Reading, element};
use vc_rule_readings::parts::amount;
use vc_value::Dec;

/// The amount of the plan's term of this number, where it has one.
pub fn amount_at<R: Reading>(plan: &Plan, reading: &R, term: u32) -> Option<Dec>
    requires fit { TermsFit plan.now }
    requires values { LiesInGrains plan.now (R.seen reading.now) }
    ensures { result ≡ stored (amount_at plan.now
        (full_reading plan.now (R.seen reading.now) (R.holdings reading.now)) term) }
{
    amount(plan, reading, term)
}

/// The quantity of the line of this number, where it has one.
pub fn quantity_of<R: Reading>(plan: &Plan, reading: &R, line: u32) -> Option<Dec>
    requires fit { TermsFit plan.now }
    requires values { LiesInGrains plan.now (R.seen reading.now) }
    ensures { result ≡ stored (quantity_of plan.now
        (full_reading plan.now (R.seen reading.now) (R.holdings reading.now)) line) }
{
    match element(plan.lines.as_slice(), line) {
        Some(line) => amount_at(plan, reading, line.quantity),
        None => None,
    }
}
