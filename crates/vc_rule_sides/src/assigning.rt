//! What follows for a variable that is to have the value of a term.

ghost use Rattle.std.specs.Prelude.{◌≡◌};
ghost use Rattle.vc_plan.specs.Restrictions.{assigned, equal_to};
ghost use Rattle.vc_plan.specs.Truth.{number_of_value};
ghost use Rattle.vc_plan_values.specs.Computing.{TermsFit, ArgumentFits};
ghost use Rattle.vc_plan_values.specs.Values.{meant, meant_if};
ghost use Rattle.vc_rule_sides.specs.Assigning.{assigned_given};

use vc_plan::Plan;
use vc_plan_values::rounding::rounded_value;
use vc_plan_values::{TermValue, decimals_of, some_holds, stored_value};
use vc_value::Value;

/// What follows for a variable.
#[derive(Clone, Copy, Debug, PartialEq, Eq)]
pub enum Assigned {
    Nothing,
    /// None of its grains holds the value that it is to have.
    NoGrain,
    /// The variable has the value.
    To(u32, Value),
}

fn assign(plan: &Plan, var: u32, value: TermValue) -> Assigned
    requires { TermsFit plan.now }
    ensures { assigned_given result ≡ assigned plan.now var (meant value) }
{
    match stored_value(value) {
        Some(value) => {
            if some_holds(plan, var, value) {
                Assigned::To(var, value)
            } else {
                Assigned::NoGrain
            }
        }
        None => Assigned::NoGrain,
    }
}

/// What follows for the variable, if there is one, from the value that it is to have when it is
/// rounded to the variable's decimals, if there is one. The caller sees that a number is at most
/// 10^36 - 10^6 millionths in absolute value.
pub fn equal_to(plan: &Plan, var: Option<u32>, value: Option<TermValue>) -> Assigned
    requires fit { TermsFit plan.now }
    requires small { ArgumentFits (number_of_value (meant_if value)) }
    ensures { assigned_given result ≡ equal_to plan.now var (meant_if value) }
{
    match (var, value) {
        (Some(var), Some(value)) => {
            assign(plan, var, rounded_value(decimals_of(plan, var), value))
        }
        _ => Assigned::Nothing,
    }
}
