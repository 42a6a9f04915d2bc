//! What rules of the kinds Among, Never, Last and Line say where they act.

ghost use Rattle.std.specs.Prelude.{◌≡◌, slice_get};
ghost use Rattle.vc_base.specs.Rounds.{atoms};
ghost use Rattle.vc_plan.specs.Answers.{last_atoms, value_atoms, only_value};
ghost use Rattle.vc_plan.specs.Gives.{not_out};
ghost use Rattle.vc_plan.specs.Restrictions.{is_inferred};
ghost use Rattle.vc_plan.specs.Seen.{parent_in, is_here};
ghost use Rattle.vc_plan_values.specs.Computing.{TermsFit};
ghost use Rattle.vc_rule_premises.specs.Citing.{cited_all};
ghost use Rattle.vc_rule_premises.specs.Saying.{said_from, taken};
ghost use Rattle.vc_rule_grains.specs.Finding.{GrainsFit};
ghost use Rattle.vc_rule_grains.specs.Kinds.{among_said, never_said, last_said, line_said, slot_of, why_last};

use crate::allowing::allowed_of;
use crate::confining::{cite_outs, confine, say_if_none};
use crate::grains::{only_value, stands};
use crate::remaining::{Remaining, remaining_of};
use crate::testing::AnyPiece;
use vc_plan::{Atom, Plan, Restriction, Rule, View, element};
use vc_plan_values::is_inferred;
use vc_rule_yield::Yield;

/// Says that the rule's condition must not be true.
pub fn say_never(out: &mut Yield)
    ensures { out.new ≡ taken out.old never_said }
{
    out.clash_now();
}

/// Says what follows where the variable is restricted against literals.
pub fn say_among<V: View>(
    plan: &Plan,
    view: &V,
    rule: &Rule,
    var: u32,
    restriction: &Restriction,
    out: &mut Yield,
)
    requires fit { TermsFit plan.now }
    requires grains { GrainsFit plan.now }
    ensures { out.new ≡ taken out.old (among_said plan.now (V.seen view.now) rule.now var restriction.now) }
{
    let allowed = allowed_of(plan, var, restriction);
    if is_inferred(rule, var) {
        confine(plan, view, var, &allowed, out);
    } else {
        say_if_none(plan, view, var, &allowed, out);
    }
}

/// Says that the variable has its last grain's value, where its slot is here and one grain alone
/// isn't out.
pub fn say_last<V: View>(plan: &Plan, view: &V, var: u32, out: &mut Yield)
    requires { GrainsFit plan.now }
    ensures { out.new ≡ taken out.old (last_said plan.now (V.seen view.now) var) }
{
    if is_here(plan, view, var) {
        say_last_grain(plan, view, var, out);
    }
}

fn say_last_grain<V: View>(plan: &Plan, view: &V, var: u32, out: &mut Yield)
    requires { GrainsFit plan.now }
    ensures { out.new ≡ taken out.old (said_from (V.seen view.now) (why_last plan.now (V.seen view.now) var)
        (atoms (last_atoms plan.now var (not_out plan.now (V.seen view.now) var)))) }
{
    match remaining_of(plan, view, var, None, &AnyPiece) {
        Remaining::Nothing => {}
        Remaining::One(grain) => conclude_last(plan, view, var, grain, out),
        Remaining::Several => {}
    }
}

fn conclude_last<V: View>(plan: &Plan, view: &V, var: u32, grain: u32, out: &mut Yield)
    requires { GrainsFit plan.now }
    ensures { out.new ≡ taken out.old (said_from (V.seen view.now) (why_last plan.now (V.seen view.now) var)
        (atoms (value_atoms var (only_value plan.now var grain)))) }
{
    if let Some(value) = only_value(plan, var, grain) {
        let atom = Atom::Is(var, value);
        if !stands(view, atom) {
            let count = out.cited_count();
            cite_why_last(plan, view, var, out);
            out.conclude(atom);
            out.keep_cited(count);
        }
    }
}

fn cite_why_last<V: View>(plan: &Plan, view: &V, var: u32, out: &mut Yield)
    requires { GrainsFit plan.now }
    ensures { out.new ≡ cited_all out.old (why_last plan.now (V.seen view.now) var) }
{
    cite_slot_of(plan, var, out);
    cite_outs(plan, view, var, &AnyPiece, out);
}

fn cite_slot_of(plan: &Plan, var: u32, out: &mut Yield)
    ensures { out.new ≡ cited_all out.old (slot_of plan.now var) }
{
    if let Some(x) = element(plan.vars.as_slice(), var) {
        out.cite(Atom::Here(x.slot));
    }
}

/// Whether the variable's slot is here.
pub fn is_here<V: View>(plan: &Plan, view: &V, var: u32) -> bool
    ensures { result ≡ is_here plan.now (V.seen view.now) var }
{
    match element(plan.vars.as_slice(), var) {
        Some(x) => view.here(x.slot),
        None => false,
    }
}

/// Says that the slot is here where its parent is.
pub fn say_line<V: View>(plan: &Plan, view: &V, slot: u32, out: &mut Yield)
    ensures { out.new ≡ taken out.old (line_said plan.now (V.seen view.now) slot) }
{
    if let Some(parent) = parent(plan, slot) {
        if view.here(parent) && !view.here(slot) {
            let count = out.cited_count();
            out.cite(Atom::Here(parent));
            out.conclude(Atom::Here(slot));
            out.keep_cited(count);
        }
    }
}

fn parent(plan: &Plan, slot: u32) -> Option<u32>
    ensures { result ≡ parent_in (slice_get plan.now.slots slot) }
{
    match element(plan.slots.as_slice(), slot) {
        Some(slot) => slot.parent,
        None => None,
    }
}
