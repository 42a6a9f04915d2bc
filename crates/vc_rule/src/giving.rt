//! Rules that give a variable one text, told at a glance.

ghost use Rattle.std.specs.Prelude.{◌≡◌, IfSome};
ghost use Rattle.vc_value.specs.declared.value.Value.TheVariants.{Text};
ghost use Rattle.vc_plan.specs.declared.conditions.Relation.TheVariants.{Equal};
ghost use Rattle.vc_plan.specs.declared.rules.Restriction.TheVariants.{Against};
ghost use Rattle.vc_plan_values.specs.Computing.{TermsFit};
ghost use Rattle.vc_rule_premises.specs.Saying.{taken};
ghost use Rattle.vc_rule_grains.specs.Finding.{GrainsFit, grain_with};
ghost use Rattle.vc_rule_grains.specs.Kinds.{among_said};
ghost use Rattle.vc_rule.specs.Giving.{GivesText, is_free_for, is_there};

use vc_plan::{Atom, Plan, Relation, Restriction, Rule, View};
use vc_plan_values::{is_inferred, is_restrictable};
use vc_rule_grains::finding::grain_of;
use vc_rule_grains::say_among;
use vc_rule_yield::Yield;
use vc_value::Value;

/// Says what follows where the variable is restricted against literals. Where that is that it has one text, no grain is
/// looked at but that of the text.
pub(crate) fn say_among_or_text<V: View>(
    plan: &Plan,
    view: &V,
    rule: &Rule,
    var: u32,
    restriction: &Restriction,
    out: &mut Yield,
)
    requires fit { TermsFit plan.now }
    requires grains { GrainsFit plan.now }
    ensures { out.new ≡ taken out.old (among_said plan.now (V.seen view.now) rule.now var restriction.now) }
{
    match text_to_come(plan, view, rule, var, restriction) {
        Some(text) => out.conclude(Atom::Is(var, Value::Text(text))),
        None => say_among(plan, view, rule, var, restriction, out),
    }
}

// The text that the variable gets, where it may get one and nothing hinders that.
fn text_to_come<V: View>(
    plan: &Plan,
    view: &V,
    rule: &Rule,
    var: u32,
    restriction: &Restriction,
) -> Option<u32>
    requires { GrainsFit plan.now }
    ensures { IfSome result (λ text. GivesText plan.now (V.seen view.now) rule.now var restriction.now text) }
{
    match text_of(restriction) {
        Some(text) => {
            if is_free_for(plan, view, rule, var) && is_there(plan, view, var, text) {
                Some(text)
            } else {
                None
            }
        }
        None => None,
    }
}

// The text that is allowed alone.
fn text_of(restriction: &Restriction) -> Option<u32>
    ensures { IfSome result (λ text. restriction.now ≡ Against Equal (Text text)) }
{
    match restriction {
        Restriction::Against(Relation::Equal, Value::Text(text)) => Some(*text),
        _ => None,
    }
}

fn is_free_for<V: View>(plan: &Plan, view: &V, rule: &Rule, var: u32) -> bool
    ensures { result ≡ is_free_for plan.now (V.seen view.now) rule.now var }
{
    view.value(var).is_none() && is_inferred(rule, var) && !is_restrictable(plan, var)
}

// Whether the grain of the text is there, and isn't out.
fn is_there<V: View>(plan: &Plan, view: &V, var: u32, text: u32) -> bool
    requires { GrainsFit plan.now }
    ensures { result ≡ is_there ((V.seen view.now).out var) (grain_with plan.now var (Text text)) }
{
    match grain_of(plan, var, Value::Text(text)) {
        Some(grain) => !view.out(var, grain),
        None => false,
    }
}
