//! Rules of which it is told at a glance that they say nothing new.

ghost use Rattle.std.specs.Prelude.{◌≡◌};
ghost use Rattle.vc_plan.specs.Domains.{count_of};
ghost use Rattle.vc_rule.specs.Resting.{are_two_left, asks_for, asks_for_text, is_text, rests};

use vc_plan::{Kind, Plan, Relation, Restriction, View, count_of};
use vc_plan_values::is_restrictable;
use vc_value::Value;

/// Whether it gives a variable that isn't restrictable the text that this has, or is the rule of a variable's last
/// grain and two are left. So it is with the rule that gave an atom and with that of its variable's last grain: a net
/// passes them over when the atom wakes its readers.
pub fn rests<V: View>(plan: &Plan, view: &V, kind: &Kind) -> bool
    ensures { result ≡ rests plan.now (V.seen view.now) kind.now }
{
    match kind {
        Kind::Among(var, restriction) => {
            asks_for(restriction, view.value(*var)) && !is_restrictable(plan, *var)
        }
        Kind::Last(var) => are_two_left(plan, view, *var),
        _ => false,
    }
}

// Whether the variable's first two grains aren't out.
fn are_two_left<V: View>(plan: &Plan, view: &V, var: u32) -> bool
    ensures { result ≡ are_two_left ((V.seen view.now).out var) (count_of plan.now var) }
{
    count_of(plan, var) > 1 && !view.out(var, 0) && !view.out(var, 1)
}

fn asks_for(restriction: &Restriction, value: Option<Value>) -> bool
    ensures { result ≡ asks_for restriction.now value }
{
    match restriction {
        Restriction::Against(relation, wanted) => asks_for_text(*relation, *wanted, value),
        Restriction::OneOf(_) => false,
    }
}

fn asks_for_text(relation: Relation, wanted: Value, value: Option<Value>) -> bool
    ensures { result ≡ asks_for_text relation wanted value }
{
    match relation {
        Relation::Equal => is_text(wanted, value),
        _ => false,
    }
}

fn is_text(wanted: Value, value: Option<Value>) -> bool
    ensures { result ≡ is_text wanted value }
{
    match (wanted, value) {
        (Value::Text(wanted), Some(Value::Text(text))) => wanted == text,
        _ => false,
    }
}
