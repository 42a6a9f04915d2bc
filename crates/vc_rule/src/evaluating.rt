//! One rule, evaluated at a view.

ghost use Rattle.std.specs.Prelude.{◌≡◌, ◌+◌, ◌^◌, ◌<◌};
ghost use Rattle.vc_plan.specs.Domains.{atom_count};
ghost use Rattle.vc_plan_values.specs.Computing.{TermsFit, LiesInGrains};
ghost use Rattle.vc_rule_premises.specs.Saying.{held, taken, HasRoomFor};
ghost use Rattle.vc_rule.specs.Evaluating.{kind_said, found_at, taken_from, RulesFit};

use crate::giving::say_among_or_text;
use std::sync::ledger::Ledger;
use vc_plan::{Kind, Plan, Rule, View, element};
use vc_rule_grains::{say_last, say_line, say_never};
use vc_rule_premises::cite_if_it_acts;
use vc_rule_sides::{say_compare, say_equate};
use vc_rule_table_saying::say_table;
use vc_rule_yield::Yield;
use vc_value_steps::Steps;

/// Evaluates the rule at the view, which is one step. What was in the yield goes; then it has what
/// the rule says and doesn't stand yet, each conclusion or the clash with what it follows from:
/// nothing, where the rule doesn't act. It takes no memory.
pub fn evaluate<V: View, L: Ledger>(
    plan: &Plan,
    view: &V,
    rule: u32,
    out: &mut Yield,
    steps: &mut Steps<L>,
)
    requires fit { RulesFit plan.now }
    requires values { LiesInGrains plan.now (V.seen view.now) }
    requires room { HasRoomFor out.old.rooms (found_at plan.now (V.seen view.now) rule) }
    ensures counted { steps.new ≡ steps.old + 1 }
    ensures found { held out.new ≡ found_at plan.now (V.seen view.now) rule }
    ensures rooms { out.new.rooms ≡ out.old.rooms }
{
    steps.tick();
    out.clear();
    if let Some(rule) = element(plan.rules.as_slice(), rule) {
        say_if_it_acts(plan, view, rule, out);
    }
}

fn say_if_it_acts<V: View>(plan: &Plan, view: &V, rule: &Rule, out: &mut Yield)
    requires fit { RulesFit plan.now }
    requires values { LiesInGrains plan.now (V.seen view.now) }
    ensures { out.new ≡ taken_from plan.now (V.seen view.now) rule.now out.old }
{
    if cite_if_it_acts(plan, view, rule, out) {
        say_kind(plan, view, rule, out);
    }
}

fn say_kind<V: View>(plan: &Plan, view: &V, rule: &Rule, out: &mut Yield)
    requires fit { RulesFit plan.now }
    requires values { LiesInGrains plan.now (V.seen view.now) }
    ensures { out.new ≡ taken out.old (kind_said plan.now (V.seen view.now) rule.now rule.now.kind) }
{
    match &rule.kind {
        Kind::Among(var, restriction) => say_among_or_text(
            plan,
            view,
            rule,
            *var,
            restriction,
            out,
        ),
        Kind::Compare {
            relation,
            left,
            right,
        } => say_compare(plan, view, rule, *relation, *left, *right, out),
        Kind::Equate { left, right } => say_equate(plan, view, rule, *left, *right, out),
        Kind::ByTable { table, columns } => say_table(
            plan,
            view,
            rule,
            *table,
            columns.as_slice(),
            out,
        ),
        Kind::Never => say_never(out),
        Kind::Last(var) => say_last(plan, view, *var, out),
        Kind::Line(slot) => say_line(plan, view, *slot, out),
    }
}
