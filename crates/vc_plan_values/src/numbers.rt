//! What functions and operators make of numbers.

ghost use Rattle.std.specs.Prelude.{◌≡◌, ◌-◌, ◌^◌, ◌≤◌, unsigned_abs, option_map};
ghost use Rattle.vc_plan.specs.Numbers.{applied, operated, joined};
ghost use Rattle.vc_plan_values.specs.Computing.{ArgumentFits, OperandsFit, load};
ghost use Rattle.vc_plan_values.specs.Values.{count_if};

use vc_plan::{Function, Operator};
use vc_value_wide::Wide;

fn apply(function: Function, number: Wide) -> Wide
    requires { unsigned_abs number.millionths ≤ 10 ^ 36 - 10 ^ 6 }
    ensures { result.millionths ≡ applied function number.millionths }
{
    match function {
        Function::Negative => Wide {
            millionths: -number.millionths,
        },
        Function::Abs => number.abs(),
        Function::Sign => number.sign(),
        Function::Trunc => number.trunc(),
        Function::Floor => number.floor(),
        Function::Ceil => number.ceil(),
        Function::Frac => number.frac(),
    }
}

/// What the function makes of a number, where it is there.
pub fn applied(function: Function, number: Option<Wide>) -> Option<Wide>
    requires { ArgumentFits (count_if number) }
    ensures { count_if result ≡ option_map (applied function) (count_if number) }
{
    match number {
        Some(number) => Some(apply(function, number)),
        None => None,
    }
}

fn operate(operator: Operator, left: Wide, right: Wide) -> Option<Wide>
    requires { load operator left.millionths right.millionths ≤ 10 ^ 36 }
    ensures { count_if result ≡ operated operator left.millionths right.millionths }
{
    match operator {
        Operator::Plus => Some(left.plus(right)),
        Operator::Minus => Some(left.minus(right)),
        Operator::Times => Some(left.times(right)),
        Operator::Over => left.over(right),
    }
}

/// What the operator makes of two numbers, where both are there.
pub fn joined(operator: Operator, left: Option<Wide>, right: Option<Wide>) -> Option<Wide>
    requires { OperandsFit operator (count_if left) (count_if right) }
    ensures { count_if result ≡ joined operator (count_if left) (count_if right) }
{
    match (left, right) {
        (Some(left), Some(right)) => operate(operator, left, right),
        _ => None,
    }
}
