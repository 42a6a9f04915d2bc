//! Whether a rule acts, and why.

ghost use Rattle.std.specs.Prelude.{◌≡◌, ◌&&◌, ◌∷◌, ◌++◌, [], if◌then◌else◌, map, slice_get};
ghost use Rattle.std.specs.List.{list_all};
ghost use Rattle.vc_plan.specs.declared.atoms.Atom.TheVariants.{Here};
ghost use Rattle.vc_plan.specs.declared.conditions.Condition.TheVariants.{Compared};
ghost use Rattle.vc_plan.specs.declared.terms.Term.TheVariants.{Literal, Read};
ghost use Rattle.vc_plan.specs.Gives.{acts};
ghost use Rattle.vc_plan.specs.Kleene.{is_true};
ghost use Rattle.vc_plan.specs.Pieces.{relates};
ghost use Rattle.vc_plan.specs.Readings.{net_reading};
ghost use Rattle.vc_plan.specs.Truth.{truth};
ghost use Rattle.vc_plan_values.specs.Computing.{TermsFit, LiesInGrains};
ghost use Rattle.vc_rule_premises.specs.Citing.{cited_all, values_of, deciding_if, why_it_acts};

use crate::citing::cite_deciding;
use vc_plan::{Atom, Condition, Plan, Relation, Rule, Term, View, element};
use vc_plan_values::{is_true, of_value, relates};
use vc_rule_terms::truth;
use vc_rule_yield::Yield;
use vc_rule_yield::atoms::same_value;
use vc_value::Value;

/// Cites why the rule acts, if it does: its slots, and the values that make its condition true. Tells whether it acts:
/// all its slots are here and its condition is true.
pub fn cite_if_it_acts<V: View>(plan: &Plan, view: &V, rule: &Rule, out: &mut Yield) -> bool
    requires fit { TermsFit plan.now }
    requires values { LiesInGrains plan.now (V.seen view.now) }
    ensures acts { result ≡ acts plan.now (V.seen view.now) rule.now }
    ensures cited { out.new ≡ (if acts plan.now (V.seen view.now) rule.now
        then cited_all out.old (why_it_acts plan.now (V.seen view.now) rule.now) else out.old) }
{
    match element(plan.conditions.as_slice(), rule.condition) {
        Some(Condition::Compared(relation, Term::Read(var), Term::Literal(literal))) => {
            cite_if_it_relates(view, rule.slots.as_slice(), *relation, *var, *literal, out)
        }
        _ => cite_if_true(plan, view, rule, out),
    }
}

// The same of slots and a condition that compares a variable with a literal, as most do: it is looked up once.
fn cite_if_it_relates<V: View>(
    view: &V,
    slots: &[u32],
    relation: Relation,
    var: u32,
    literal: Value,
    out: &mut Yield,
) -> bool
    ensures acts { result ≡ (list_all (V.seen view.now).here slots.now
        && is_true (truth (net_reading (V.seen view.now)) (Compared relation (Read var) (Literal literal)))) }
    ensures cited { out.new ≡ (if result
        then cited_all out.old (map Here slots.now ++ values_of (V.seen view.now) (var ∷ [])) else out.old) }
{
    match view.value(var) {
        Some(value) => {
            let acts = are_here(view, slots) && stands_to(relation, value, literal);
            if acts {
                cite_slots(slots, out);
                out.cite(Atom::Is(var, value));
            }
            acts
        }
        None => false,
    }
}

// Whether the first value stands in the relation to the second; equality is told at a glance.
fn stands_to(relation: Relation, first: Value, second: Value) -> bool
    ensures { result ≡ relates relation first second }
{
    match relation {
        Relation::Equal => same_value(first, second),
        _ => relates(relation, of_value(first), of_value(second)),
    }
}

// The same of any condition.
fn cite_if_true<V: View>(plan: &Plan, view: &V, rule: &Rule, out: &mut Yield) -> bool
    requires fit { TermsFit plan.now }
    requires values { LiesInGrains plan.now (V.seen view.now) }
    ensures acts { result ≡ acts plan.now (V.seen view.now) rule.now }
    ensures cited { out.new ≡ (if result
        then cited_all out.old (why_it_acts plan.now (V.seen view.now) rule.now) else out.old) }
{
    let acts = are_here(view, rule.slots.as_slice()) && is_true(truth(plan, view, rule.condition));
    if acts {
        cite_slots(rule.slots.as_slice(), out);
        cite_condition(plan, view, rule.condition, out);
    }
    acts
}

fn are_here<V: View>(view: &V, slots: &[u32]) -> bool
    ensures { result ≡ list_all (V.seen view.now).here slots.now }
{
    let mut rest = slots;
    while let [slot, more @ ..] = rest {
        if !view.here(*slot) {
            return false;
        }
        rest = more;
    }
    true
}

fn cite_slots(slots: &[u32], out: &mut Yield)
    ensures { out.new ≡ cited_all out.old (map Here slots.now) }
{
    let mut rest = slots;
    while let [slot, more @ ..] = rest {
        out.cite(Atom::Here(*slot));
        rest = more;
    }
}

fn cite_condition<V: View>(plan: &Plan, view: &V, condition: u32, out: &mut Yield)
    requires fit { TermsFit plan.now }
    requires values { LiesInGrains plan.now (V.seen view.now) }
    ensures { out.new ≡ cited_all out.old (values_of (V.seen view.now) (deciding_if (V.seen view.now)
        (slice_get plan.now.conditions condition))) }
{
    if let Some(condition) = element(plan.conditions.as_slice(), condition) {
        cite_deciding(view, true, condition, out);
    }
}
