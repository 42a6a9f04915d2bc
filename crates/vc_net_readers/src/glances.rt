//! What is told of a rule at a glance, kept by the rule's number so that a net needn't look at the rule.

ghost use Rattle.std.specs.Prelude.{◌≡◌};
ghost use Rattle.vc_net_readers.specs.Glances.{glance_by, hint_among, hint_by, hint_in, hint_of_value};

use crate::triggers::trigger_by;
use vc_net_laws::Trigger;
use vc_plan::{Kind, Plan, Relation, Restriction, count_of, element};
use vc_plan_values::is_restrictable;
use vc_value::Value;

/// What a rule says, as far as it is told at a glance.
#[derive(Clone, Copy, Debug, PartialEq, Eq)]
pub enum Hint {
    /// The variable, which isn't restrictable, is to have the text.
    GivesText { var: u32, text: u32 },
    /// The variable has its last grain; with whether it has two at the start.
    IsLast { var: u32, has_two: bool },
    Untold,
}

/// What is told of a rule at a glance: what it waits for, and what it says.
#[derive(Clone, Copy, Debug, PartialEq, Eq)]
pub struct Glance {
    pub trigger: Option<Trigger>,
    pub hint: Hint,
}

fn hint_of_value(plan: &Plan, var: u32, value: Value) -> Hint
    ensures { result ≡ hint_of_value plan.now var value }
{
    match value {
        Value::Text(text) => {
            if is_restrictable(plan, var) {
                Hint::Untold
            } else {
                Hint::GivesText { var, text }
            }
        }
        Value::Num(_) => Hint::Untold,
    }
}

fn hint_among(plan: &Plan, var: u32, restriction: &Restriction) -> Hint
    ensures { result ≡ hint_among plan.now var restriction.now }
{
    match restriction {
        Restriction::Against(Relation::Equal, value) => hint_of_value(plan, var, *value),
        _ => Hint::Untold,
    }
}

fn hint_in(plan: &Plan, kind: &Kind) -> Hint
    ensures { result ≡ hint_in plan.now kind.now }
{
    match kind {
        Kind::Among(var, restriction) => hint_among(plan, *var, restriction),
        Kind::Last(var) => Hint::IsLast {
            var: *var,
            has_two: count_of(plan, *var) > 1,
        },
        _ => Hint::Untold,
    }
}

fn hint_by(plan: &Plan, rule: u32) -> Hint
    ensures { result ≡ hint_by plan.now rule }
{
    match element(plan.rules.as_slice(), rule) {
        Some(rule) => hint_in(plan, &rule.kind),
        None => Hint::Untold,
    }
}

/// What is told of the rule of this number at a glance; nothing where there is no such rule.
pub fn glance_by(plan: &Plan, rule: u32) -> Glance
    ensures { result ≡ glance_by plan.now rule }
{
    Glance {
        trigger: trigger_by(plan, rule),
        hint: hint_by(plan, rule),
    }
}
