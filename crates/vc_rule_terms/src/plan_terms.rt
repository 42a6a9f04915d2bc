//! Conditions and terms of a plan by their numbers.

ghost use Rattle.std.specs.Prelude.{◌≡◌};
ghost use Rattle.vc_plan.specs.Readings.{net_reading};
ghost use Rattle.vc_plan.specs.Truth.{truth_at, value_at};
ghost use Rattle.vc_plan_values.specs.Computing.{TermsFit, LiesInGrains, number_at};
ghost use Rattle.vc_plan_values.specs.Values.{meant_if, count_if};

use crate::{conditions, numbers};
use vc_plan::{Kleene, Plan, View, element};
use vc_plan_values::TermValue;
use vc_value_wide::Wide;

/// The truth of the plan's condition of this number at what the view says, as a net asks it: what
/// has no value yet is unknown.
pub fn truth<V: View>(plan: &Plan, view: &V, condition: u32) -> Kleene
    requires fit { TermsFit plan.now }
    requires values { LiesInGrains plan.now (V.seen view.now) }
    ensures { result ≡ truth_at plan.now (net_reading (V.seen view.now)) condition }
{
    match element(plan.conditions.as_slice(), condition) {
        Some(condition) => conditions::truth(view, condition),
        None => Kleene::Unknown,
    }
}

/// The value of the plan's term of this number at what the view says, where it has one.
pub fn term_value<V: View>(plan: &Plan, view: &V, term: u32) -> Option<TermValue>
    requires fit { TermsFit plan.now }
    requires values { LiesInGrains plan.now (V.seen view.now) }
    ensures { meant_if result ≡ value_at plan.now (net_reading (V.seen view.now)) term }
{
    match element(plan.terms.as_slice(), term) {
        Some(term) => numbers::term_value(view, term),
        None => None,
    }
}

/// The number of the plan's term of this number at what the view says, where it has one.
pub fn number<V: View>(plan: &Plan, view: &V, term: u32) -> Option<Wide>
    requires fit { TermsFit plan.now }
    requires values { LiesInGrains plan.now (V.seen view.now) }
    ensures { count_if result ≡ number_at plan.now (net_reading (V.seen view.now)) term }
{
    match element(plan.terms.as_slice(), term) {
        Some(term) => numbers::number(view, term),
        None => None,
    }
}
