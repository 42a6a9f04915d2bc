//! Which values a user may give.

ghost use Rattle.std.specs.Prelude.{◌≡◌, ◌==◌, option_copied, slice_get};
ghost use Rattle.std.specs.List.{list_any};
ghost use Rattle.vc_plan.specs.Domains.{decimals_of, domain_of, texts_of};
ghost use Rattle.vc_plan.specs.Fitting.{has_at_most, may_have};
ghost use Rattle.vc_session.specs.Edits.{may_be_given};

use vc_plan::{Named, Plan};
use vc_plan_values::some_holds;
use vc_value::{Domain, Value};

/// Whether the user may give it the value: a variable one that a grain holds, with no more decimals than its numbers;
/// a set a text of its list.
pub fn may_be_given(plan: &Plan, named: Named, value: Value) -> bool
    ensures { result ≡ may_be_given plan.now named value }
{
    match named {
        Named::Var(var) => may_have(plan, var, value),
        Named::Set(set) => match value {
            Value::Text(text) => is_listed(plan, set, text),
            Value::Num(_) => false,
        },
    }
}

fn may_have(plan: &Plan, var: u32, value: Value) -> bool
    ensures { result ≡ may_have plan.now var value }
{
    some_holds(plan, var, value) && has_at_most(decimals_of(plan, var), value)
}

fn has_at_most(decimals: u8, value: Value) -> bool
    ensures { result ≡ has_at_most decimals value }
{
    match value {
        Value::Text(_) => true,
        Value::Num(number) => number.has_decimals(decimals),
    }
}

fn domain_of(plan: &Plan, var: u32) -> Option<&Domain>
    ensures { option_copied result ≡ domain_of plan.now (slice_get plan.now.vars var) }
{
    let found = plan.vars.as_slice().get(var as usize)?;
    plan.domains.as_slice().get(found.domain as usize)
}

fn decimals_of(plan: &Plan, var: u32) -> u8
    ensures { result ≡ decimals_of plan.now var }
{
    match domain_of(plan, var) {
        Some(
            Domain::Nums {
                decimals,
                grains: _,
            },
        ) => *decimals,
        _ => 6,
    }
}

fn has_text(texts: &[u32], text: u32) -> bool
    ensures { result ≡ list_any (λ listed. listed == text) texts.now }
{
    texts.iter().any(|listed| *listed == text)
}

fn is_listed(plan: &Plan, set: u32, text: u32) -> bool
    ensures { result ≡ list_any (λ listed. listed == text) (texts_of plan.now set) }
{
    match plan.sets.as_slice().get(set as usize) {
        Some(found) => match plan.domains.as_slice().get(found.domain as usize) {
            Some(Domain::Texts(texts)) => has_text(texts.as_slice(), text),
            _ => false,
        },
        None => false,
    }
}
