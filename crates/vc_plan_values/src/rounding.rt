//! Decimals of variables, and values of terms as they are rounded and stored.

ghost use Rattle.std.specs.Prelude.{◌≡◌, ◌≤◌, min, Some};
ghost use Rattle.vc_plan.specs.Domains.{decimals_in, decimals_of};
ghost use Rattle.vc_plan.specs.Restrictions.{decimals_in_side, differ, literal_for, rounded_value};
ghost use Rattle.vc_plan.specs.Truth.{number_in, number_of_value};
ghost use Rattle.vc_plan_values.specs.Computing.{ArgumentFits, TermsFit};
ghost use Rattle.vc_plan_values.specs.Values.{meant, meant_if, stored_value};

use crate::relations::same_value;
use crate::values::{TermValue, of_value};
use vc_plan::{Plan, Relation, element};
use vc_value::{Domain, Value};
use vc_value_wide::Wide;

/// How many decimals the variable's numbers have; 6 where it has none.
#[tactic(auto, using(crate::proofs::StoredLemmas::few_decimals))]
pub fn decimals_of(plan: &Plan, var: u32) -> u8
    requires { TermsFit plan.now }
    ensures is { result ≡ decimals_of plan.now var }
    ensures few { result ≤ 6 }
{
    match element(plan.vars.as_slice(), var) {
        Some(x) => match element(plan.domains.as_slice(), x.domain) {
            Some(domain) => decimals_in(domain),
            None => 6,
        },
        None => 6,
    }
}

fn decimals_in(domain: &Domain) -> u8
    ensures { result ≡ decimals_in (Some domain.now) }
{
    match domain {
        Domain::Texts(_) => 6,
        Domain::Nums {
            decimals,
            grains: _,
        } => *decimals,
    }
}

/// The decimals of a side that is this variable; 6 where it isn't one.
pub fn decimals_in_side(plan: &Plan, var: Option<u32>) -> u8
    requires { TermsFit plan.now }
    ensures is { result ≡ decimals_in_side plan.now var }
    ensures few { result ≤ 6 }
{
    match var {
        Some(var) => decimals_of(plan, var),
        None => 6,
    }
}

/// The fewer of the decimals of two sides.
pub fn decimals_of_sides(plan: &Plan, left: Option<u32>, right: Option<u32>) -> u8
    requires { TermsFit plan.now }
    ensures is { result ≡ min (decimals_in_side plan.now left) (decimals_in_side plan.now right) }
    ensures few { result ≤ 6 }
{
    decimals_in_side(plan, left).min(decimals_in_side(plan, right))
}

/// The value with so many decimals.
pub fn rounded_value(decimals: u8, value: TermValue) -> TermValue
    requires decimals { decimals ≤ 6 }
    requires fits { ArgumentFits (number_in (meant value)) }
    ensures { meant result ≡ rounded_value decimals (meant value) }
{
    match value {
        TermValue::Text(text) => TermValue::Text(text),
        TermValue::Number(number) => TermValue::Number(number.rounded(decimals)),
    }
}

/// Whether both values are there and differ with so many decimals.
pub fn differ(decimals: u8, first: Option<TermValue>, second: Option<TermValue>) -> bool
    requires decimals { decimals ≤ 6 }
    requires first { ArgumentFits (number_of_value (meant_if first)) }
    requires second { ArgumentFits (number_of_value (meant_if second)) }
    ensures { result ≡ differ decimals (meant_if first) (meant_if second) }
{
    match (first, second) {
        (Some(first), Some(second)) => {
            !same_value(
                rounded_value(decimals, first),
                rounded_value(decimals, second),
            )
        }
        _ => false,
    }
}

/// The literal of a restriction: at `=` rounded.
pub fn literal_for(relation: Relation, decimals: u8, value: Value) -> TermValue
    requires { decimals ≤ 6 }
    ensures { meant result ≡ literal_for relation decimals value }
{
    match (relation, value) {
        (Relation::Equal, Value::Num(number)) => {
            TermValue::Number(Wide::from(number).rounded(decimals))
        }
        _ => of_value(value),
    }
}

/// The value, where it is small enough to be stored.
pub fn stored_value(value: TermValue) -> Option<Value>
    ensures { result ≡ stored_value (meant value) }
{
    match value {
        TermValue::Text(text) => Some(Value::Text(text)),
        TermValue::Number(number) => match number.to_dec() {
            Some(number) => Some(Value::Num(number)),
            None => None,
        },
    }
}
