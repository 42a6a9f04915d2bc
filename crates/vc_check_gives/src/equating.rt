//! Equations of two terms.

ghost use Rattle.std.specs.Prelude.{◌≡◌, ◌&&◌, is_none};
ghost use Rattle.vc_plan.specs.Readings.{net_reading};
ghost use Rattle.vc_plan.specs.Restrictions.{assigned, equal_to, equate};
ghost use Rattle.vc_plan.specs.Truth.{number_of_value, value_at};
ghost use Rattle.vc_plan_values.specs.Computing.{ArgumentFits, LiesInGrains, TermsFit};
ghost use Rattle.vc_plan_values.specs.Values.{meant, meant_if};
ghost use Rattle.vc_check_gives.specs.Parts.{given_by, part_given};

use crate::parts::{Part, Parts};
use vc_check_truth::term_value;
use vc_plan::{Plan, Rule, View};
use vc_plan_values::rounding::{decimals_of_sides, differ, rounded_value};
use vc_plan_values::{TermValue, decimals_of, lone, lone_inferred, some_holds, stored_value};

fn assigned<'a>(plan: &Plan, var: u32, value: TermValue) -> Part<'a>
    requires { TermsFit plan.now }
    ensures { part_given plan.now result ≡ assigned plan.now var (meant value) }
{
    match stored_value(value) {
        Some(value) => {
            if some_holds(plan, var, value) {
                Part::To(var, value)
            } else {
                Part::Clash
            }
        }
        None => Part::Clash,
    }
}

fn equal_to<'a>(plan: &Plan, var: Option<u32>, value: Option<TermValue>) -> Part<'a>
    requires fit { TermsFit plan.now }
    requires small { ArgumentFits (number_of_value (meant_if value)) }
    ensures { part_given plan.now result ≡ equal_to plan.now var (meant_if value) }
{
    match (var, value) {
        (Some(var), Some(value)) => {
            assigned(plan, var, rounded_value(decimals_of(plan, var), value))
        }
        _ => Part::Nothing,
    }
}

// The value of a side: its number can be rounded.
fn value_of_side<V: View>(plan: &Plan, view: &V, term: u32) -> Option<TermValue>
    requires fit { TermsFit plan.now }
    requires values { LiesInGrains plan.now (V.seen view.now) }
    ensures is { meant_if result ≡ value_at plan.now (net_reading (V.seen view.now)) term }
    ensures small { ArgumentFits (number_of_value (meant_if result)) }
{
    term_value(plan, view, term)
}

fn are_none(left: Option<u32>, right: Option<u32>) -> bool
    ensures { result ≡ is_none left && is_none right }
{
    left.is_none() && right.is_none()
}

/// What is said where both terms are to be equal.
pub fn equate<'a, V: View>(plan: &Plan, view: &V, rule: &Rule, left: u32, right: u32) -> Parts<'a>
    requires fit { TermsFit plan.now }
    requires values { LiesInGrains plan.now (V.seen view.now) }
    ensures { given_by plan.now result ≡ equate plan.now (V.seen view.now) rule.now left right }
{
    let first = value_of_side(plan, view, left);
    let second = value_of_side(plan, view, right);
    let of_left = lone_inferred(plan, rule, left);
    let of_right = lone_inferred(plan, rule, right);
    let decimals = decimals_of_sides(plan, lone(plan, left), lone(plan, right));
    if are_none(of_left, of_right) && differ(decimals, first, second) {
        return Parts::Alone(Part::Clash);
    }
    Parts::Both(
        equal_to(plan, of_left, second),
        equal_to(plan, of_right, first),
    )
}
