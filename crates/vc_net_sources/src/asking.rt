//! A giver, asked at a view.

ghost use Rattle.std.specs.Prelude.{◌≡◌, ◌+◌, [], ◌∷◌};
ghost use Rattle.vc_base.specs.Rounds.{atoms};
ghost use Rattle.vc_plan.specs.declared.atoms.Atom.TheVariants.{Is};
ghost use Rattle.vc_plan.specs.Seen.{is_here};
ghost use Rattle.vc_plan_values.specs.Computing.{LiesInGrains};
ghost use Rattle.vc_rule_premises.specs.Citing.{cited_all};
ghost use Rattle.vc_rule_premises.specs.Saying.{held, said_from, taken, HasRoomFor};
ghost use Rattle.vc_rule_grains.specs.Kinds.{slot_of};
ghost use Rattle.vc_rule.specs.Evaluating.{RulesFit};
ghost use Rattle.vc_net_agenda.specs.Agendas.{meant};
ghost use Rattle.vc_net_sources.specs.Asking.{evaluations, found_from, given_by, is_last_of_known, rests_at};
ghost use Rattle.vc_net_sources.specs.Asking.{source_said, tells_nothing};

use crate::telling::{Telling, told_by_entry, told_by_user};
use std::sync::ledger::Ledger;
use vc_net_agenda::Giver;
use vc_plan::{Atom, Kind, Plan, View, element};
use vc_plan_sources::Sources;
use vc_rule::evaluate;
use vc_rule::resting::rests;
use vc_rule_grains::grains::stands;
use vc_rule_grains::kinds::is_here;
use vc_rule_yield::Yield;
use vc_value::Value;
use vc_value_steps::Steps;

/// Asks the giver at the view, which is one step where it is a rule. What was in the yield goes; then it has what the
/// giver says and doesn't stand yet, each conclusion or the clash with what it follows from. It takes no memory.
pub fn ask<V: View, L: Ledger>(
    plan: &Plan,
    view: &V,
    sources: &Sources,
    giver: Giver,
    out: &mut Yield,
    steps: &mut Steps<L>,
)
    requires fit { RulesFit plan.now }
    requires values { LiesInGrains plan.now (V.seen view.now) }
    requires room { HasRoomFor out.old.rooms (found_from plan.now sources.now (V.seen view.now) (meant giver)) }
    ensures counted { steps.new ≡ steps.old + evaluations (meant giver) }
    ensures found { held out.new ≡ found_from plan.now sources.now (V.seen view.now) (meant giver) }
    ensures rooms { out.new.rooms ≡ out.old.rooms }
{
    match giver {
        Giver::Rule(rule) => evaluate(plan, view, rule, out, steps),
        Giver::User(var) => ask_source(plan, view, var, told_by_user(var, sources.user(var)), out),
        Giver::Entry(var) => ask_source(
            plan,
            view,
            var,
            told_by_entry(var, sources.written(var)),
            out,
        ),
    }
}

/// Whether the giver is a source that tells nothing: then nothing is found by it, whatever stands, as
/// `silent_sources_find_nothing` says.
pub fn tells_nothing(sources: &Sources, giver: Giver) -> bool
    ensures { result ≡ tells_nothing sources.now (meant giver) }
{
    match giver {
        Giver::Rule(_) => false,
        Giver::User(var) => sources.user(var).is_none(),
        Giver::Entry(var) => sources.written(var).is_none(),
    }
}

/// Whether the rule is told at a glance to say nothing new at the view: `resting_are_quiet` says what that means. One
/// that isn't there isn't.
pub fn rests_at<V: View>(plan: &Plan, view: &V, rule: u32) -> bool
    ensures { result ≡ rests_at plan.now (V.seen view.now) rule }
{
    match element(plan.rules.as_slice(), rule) {
        Some(rule) => is_last_of_known(view, &rule.kind) || rests(plan, view, &rule.kind),
        None => false,
    }
}

// Whether it is the rule of the last grain of a variable that has a value: in a clear set that is the last grain's.
fn is_last_of_known<V: View>(view: &V, kind: &Kind) -> bool
    ensures { result ≡ is_last_of_known (V.seen view.now) kind.now }
{
    match kind {
        Kind::Last(var) => view.value(*var).is_some(),
        _ => false,
    }
}

// What a source of the variable says that tells this.
fn ask_source<V: View>(plan: &Plan, view: &V, var: u32, told: Telling, out: &mut Yield)
    requires { HasRoomFor out.old.rooms (source_said plan.now (V.seen view.now) var (given_by var told)) }
    ensures found { held out.new ≡ source_said plan.now (V.seen view.now) var (given_by var told) }
    ensures rooms { out.new.rooms ≡ out.old.rooms }
{
    out.clear();
    if is_here(plan, view, var) {
        cite_slot(plan, var, out);
        tell(view, var, told, out);
    }
}

fn cite_slot(plan: &Plan, var: u32, out: &mut Yield)
    ensures { out.new ≡ cited_all out.old (slot_of plan.now var) }
{
    if let Some(x) = element(plan.vars.as_slice(), var) {
        out.cite(Atom::Here(x.slot));
    }
}

fn tell<V: View>(view: &V, var: u32, told: Telling, out: &mut Yield)
    ensures { out.new ≡ taken out.old (said_from (V.seen view.now) [] (given_by var told)) }
{
    match told {
        Telling::Nothing => {}
        Telling::Value(value) => tell_value(view, var, value, out),
        Telling::Outside => out.clash_now(),
    }
}

fn tell_value<V: View>(view: &V, var: u32, value: Value, out: &mut Yield)
    ensures { out.new ≡ taken out.old (said_from (V.seen view.now) [] (atoms (Is var value ∷ []))) }
{
    let atom = Atom::Is(var, value);
    if !stands(view, atom) {
        out.conclude(atom);
    }
}
