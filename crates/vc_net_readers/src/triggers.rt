//! The trigger of a rule, and the place of the grain in which its value lies.

ghost use Rattle.std.specs.Prelude.{◌≡◌, ◌^◌, ◌<◌, length, map, Some};
ghost use Rattle.vc_plan.specs.declared.conditions.Piece.TheVariants.{OneText};
ghost use Rattle.vc_plan.specs.Domains.{atom_count, grains_in};
ghost use Rattle.vc_plan.specs.Gives.{by_rule};
ghost use Rattle.vc_rule_grains.specs.Finding.{GrainsFit};
ghost use Rattle.vc_net_laws.specs.Triggers.{literal_equals, trigger_by, trigger_in, trigger_of, trigger_of_relation};
ghost use Rattle.vc_net_laws.specs.Triggers.{trigger_of_sides, variable_equals};
ghost use Rattle.vc_net_places.specs.Places.{index_of};
ghost use Rattle.vc_net_readers.specs.Waiting.{grain_held, grain_in, grain_with, place_in_grain, place_of_trigger};

use vc_net_laws::Trigger;
use vc_net_places::Places;
use vc_plan::{Atom, Condition, Plan, Relation, Rule, Term, element};
use vc_plan_values::grain_count;
use vc_rule_grains::finding::{first_grain, grain_among_numbers, grain_of};
use vc_value::{Domain, Value};

fn literal_equals(value: Value, other: &Term) -> Option<Trigger>
    ensures { result ≡ literal_equals value other.now }
{
    match other {
        Term::Read(var) => Some(Trigger { var: *var, value }),
        _ => None,
    }
}

fn variable_equals(var: u32, other: &Term) -> Option<Trigger>
    ensures { result ≡ variable_equals var other.now }
{
    match other {
        Term::Literal(value) => Some(Trigger { var, value: *value }),
        _ => None,
    }
}

fn trigger_of_sides(left: &Term, right: &Term) -> Option<Trigger>
    ensures { result ≡ trigger_of_sides left.now right.now }
{
    match left {
        Term::Literal(value) => literal_equals(*value, right),
        Term::Read(var) => variable_equals(*var, right),
        _ => None,
    }
}

fn trigger_of_relation(relation: Relation, left: &Term, right: &Term) -> Option<Trigger>
    ensures { result ≡ trigger_of_relation relation left.now right.now }
{
    match relation {
        Relation::Equal => trigger_of_sides(left, right),
        _ => None,
    }
}

fn trigger_in(condition: &Condition) -> Option<Trigger>
    ensures { result ≡ trigger_in condition.now }
{
    match condition {
        Condition::Compared(relation, left, right) => trigger_of_relation(*relation, left, right),
        Condition::And(left, right) => match trigger_in(left) {
            Some(trigger) => Some(trigger),
            None => trigger_in(right),
        },
        _ => None,
    }
}

fn trigger_of(plan: &Plan, rule: &Rule) -> Option<Trigger>
    ensures { result ≡ trigger_of plan.now rule.now }
{
    match element(plan.conditions.as_slice(), rule.condition) {
        Some(condition) => trigger_in(condition),
        None => None,
    }
}

/// The trigger of the rule of this number, if it has one.
pub fn trigger_by(plan: &Plan, rule: u32) -> Option<Trigger>
    ensures { result ≡ trigger_by plan.now (by_rule rule) }
{
    match element(plan.rules.as_slice(), rule) {
        Some(rule) => trigger_of(plan, rule),
        None => None,
    }
}

#[tactic(auto, using(vc_rule_grains::proofs::FindingLemmas::no_number))]
fn grain_among_texts(texts: &[u32], count: u32, value: Value) -> Option<u32>
    requires { count ≡ length (map OneText texts.now) }
    ensures { result ≡ grain_in (map OneText texts.now) value }
{
    match value {
        Value::Text(text) => first_grain(texts, count, text),
        Value::Num(_) => None,
    }
}

fn grain_in(domain: &Domain, count: u32, value: Value) -> Option<u32>
    requires { count ≡ length (grains_in (Some domain.now)) }
    ensures { result ≡ grain_in (grains_in (Some domain.now)) value }
{
    match domain {
        Domain::Texts(texts) => grain_among_texts(texts.as_slice(), count, value),
        Domain::Nums {
            decimals: _,
            grains,
        } => grain_among_numbers(grains, value),
    }
}

/// The first grain of the variable in which the value lies, of whatever plan.
pub fn grain_with(plan: &Plan, var: u32, value: Value) -> Option<u32>
    requires { atom_count plan.now < 2 ^ 32 }
    ensures { result ≡ grain_with plan.now var value }
{
    let count = grain_count(plan, var);
    match element(plan.vars.as_slice(), var) {
        Some(x) => match element(plan.domains.as_slice(), x.domain) {
            Some(domain) => grain_in(domain, count, value),
            None => None,
        },
        None => None,
    }
}

/// The grain in which the value that the variable has lies, if it has one.
pub fn grain_held(plan: &Plan, var: u32, value: Option<Value>) -> Option<u32>
    requires { GrainsFit plan.now }
    ensures { result ≡ grain_held plan.now var value }
{
    match value {
        Some(value) => grain_of(plan, var, value),
        None => None,
    }
}

fn place_in_grain(index: &Places, var: u32, grain: Option<u32>) -> Option<usize>
    ensures { result ≡ place_in_grain index.now var grain }
{
    match grain {
        Some(grain) => Some(index.place_of(Atom::Out(var, grain))),
        None => None,
    }
}

/// The place of the grain in which the trigger's value lies.
pub fn place_of_trigger(plan: &Plan, index: &Places, trigger: Option<Trigger>) -> Option<usize>
    requires grains { GrainsFit plan.now }
    requires index { index.now ≡ index_of plan.now }
    ensures { result ≡ place_of_trigger plan.now trigger }
{
    match trigger {
        Some(trigger) => place_in_grain(
            index,
            trigger.var,
            grain_of(plan, trigger.var, trigger.value),
        ),
        None => None,
    }
}
