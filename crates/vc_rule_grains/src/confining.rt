//! A variable that is to lie in grains that pass a test.

ghost use Rattle.std.specs.Prelude.{◌≡◌, [], ◌&&◌, not, if◌then◌else◌, map, option_to_list};
ghost use Rattle.std.specs.List.{filter};
ghost use Rattle.vc_base.specs.Rounds.{atoms};
ghost use Rattle.vc_plan.specs.Answers.{nothing, clash_if, is_nothing, value_atoms, only_value};
ghost use Rattle.vc_plan.specs.Domains.{is_grain_with};
ghost use Rattle.vc_plan.specs.Restrictions.{failing, left_with, of_remaining};
ghost use Rattle.vc_plan.specs.declared.atoms.Atom.TheVariants.{Out};
ghost use Rattle.vc_rule_yield.specs.Yielding.{cited, concluded};
ghost use Rattle.vc_rule_premises.specs.Citing.{cited_all};
ghost use Rattle.vc_rule_premises.specs.Saying.{clashing, said_from, taken};
ghost use Rattle.vc_rule_grains.specs.Confining.{outs_with, why_left, confined_said};
ghost use Rattle.vc_rule_grains.specs.Finding.{GrainsFit};

use crate::finding::grain_of;
use crate::grains::{is_grain_with, only_value, stands};
use crate::remaining::{Remaining, remaining_of};
use crate::testing::Test;
use vc_plan::{Atom, Plan, View};
use vc_plan_values::{grain_count, is_restrictable};
use vc_rule_yield::Yield;

/// Says what follows where the variable is to lie in grains that pass the test: if it is
/// restrictable the others are out; if it isn't, what follows of those that are left and pass.
pub fn confine<V: View, T: Test>(plan: &Plan, view: &V, var: u32, test: &T, out: &mut Yield)
    requires { GrainsFit plan.now }
    ensures { out.new ≡ taken out.old (confined_said plan.now (V.seen view.now) var (T.passes test.now)) }
{
    if is_restrictable(plan, var) {
        exclude(plan, view, var, test, out);
    } else {
        say_remaining(plan, view, var, test, out);
    }
}

fn exclude<V: View, T: Test>(plan: &Plan, view: &V, var: u32, test: &T, out: &mut Yield)
    requires { GrainsFit plan.now }
    ensures { out.new ≡ taken out.old (said_from (V.seen view.now) [] (atoms (map (Out var)
        (failing plan.now var (T.passes test.now))))) }
{
    let count = grain_count(plan, var);
    let mut grain = 0;
    while grain < count {
        let excluded = is_excluded(plan, view, var, test, grain);
        conclude_if(excluded, Atom::Out(var, grain), out);
        grain += 1;
    }
}

// Whether the grain fails the test, and isn't out yet.
fn is_excluded<V: View, T: Test>(plan: &Plan, view: &V, var: u32, test: &T, grain: u32) -> bool
    ensures { result ≡ not (is_grain_with plan.now var (T.passes test.now) grain)
        && not ((V.seen view.now).out var grain) }
{
    !is_grain_with(plan, var, test, grain) && !view.out(var, grain)
}

fn conclude_if(concludes: bool, atom: Atom, out: &mut Yield)
    ensures { out.new ≡ (if concludes then concluded out.old atom else out.old) }
{
    if concludes {
        out.conclude(atom);
    }
}

fn say_remaining<V: View, T: Test>(plan: &Plan, view: &V, var: u32, test: &T, out: &mut Yield)
    requires { GrainsFit plan.now }
    ensures { out.new ≡ taken out.old (said_from (V.seen view.now) (why_left plan.now (V.seen view.now) var (T.passes
        test.now)) (of_remaining plan.now var (left_with plan.now (V.seen view.now) var (T.passes test.now)))) }
{
    match remaining_of(plan, view, var, view.value(var), test) {
        Remaining::Nothing => clash_from_left(plan, view, var, test, out),
        Remaining::One(grain) => conclude_value(plan, view, var, grain, test, out),
        Remaining::Several => {}
    }
}

/// Tells a clash where no grain is left that passes the test.
pub fn say_if_none<V: View, T: Test>(plan: &Plan, view: &V, var: u32, test: &T, out: &mut Yield)
    requires { GrainsFit plan.now }
    ensures { out.new ≡ taken out.old (said_from (V.seen view.now) (why_left plan.now (V.seen view.now) var (T.passes
        test.now)) (clash_if (is_nothing (left_with plan.now (V.seen view.now) var (T.passes test.now))) nothing)) }
{
    match remaining_of(plan, view, var, view.value(var), test) {
        Remaining::Nothing => clash_from_left(plan, view, var, test, out),
        Remaining::One(_) => {}
        Remaining::Several => {}
    }
}

fn clash_from_left<V: View, T: Test>(plan: &Plan, view: &V, var: u32, test: &T, out: &mut Yield)
    requires { GrainsFit plan.now }
    ensures { out.new ≡ taken out.old (clashing (why_left plan.now (V.seen view.now) var (T.passes test.now))) }
{
    cite_why_left(plan, view, var, test, out);
    out.clash_now();
}

fn conclude_value<V: View, T: Test>(
    plan: &Plan,
    view: &V,
    var: u32,
    grain: u32,
    test: &T,
    out: &mut Yield,
)
    requires { GrainsFit plan.now }
    ensures { out.new ≡ taken out.old (said_from (V.seen view.now) (why_left plan.now (V.seen view.now) var (T.passes
        test.now)) (atoms (value_atoms var (only_value plan.now var grain)))) }
{
    if let Some(value) = only_value(plan, var, grain) {
        let atom = Atom::Is(var, value);
        if !stands(view, atom) {
            let count = out.cited_count();
            cite_why_left(plan, view, var, test, out);
            out.conclude(atom);
            out.keep_cited(count);
        }
    }
}

/// Cites why no more grains that pass the test are left: the variable's value, or that the others
/// are out.
pub fn cite_why_left<V: View, T: Test>(plan: &Plan, view: &V, var: u32, test: &T, out: &mut Yield)
    requires { GrainsFit plan.now }
    ensures { out.new ≡ cited_all out.old (why_left plan.now (V.seen view.now) var (T.passes test.now)) }
{
    match view.value(var) {
        Some(value) => out.cite(Atom::Is(var, value)),
        None => cite_outs(plan, view, var, test, out),
    }
}

/// Cites that the grains that are out and pass the test are. Where a value is known that those hold that pass, no grain
/// is looked at but its own.
pub fn cite_outs<V: View, T: Test>(plan: &Plan, view: &V, var: u32, test: &T, out: &mut Yield)
    requires { GrainsFit plan.now }
    ensures { out.new ≡ cited_all out.old (outs_with plan.now (V.seen view.now) var (T.passes test.now)) }
{
    match test.only() {
        Some(value) => cite_out_at(plan, view, var, test, grain_of(plan, var, value), out),
        None => cite_outs_among(plan, view, var, test, out),
    }
}

// The same, where no grain is out and passes but this one, if there is one.
fn cite_out_at<V: View, T: Test>(
    plan: &Plan,
    view: &V,
    var: u32,
    test: &T,
    grain: Option<u32>,
    out: &mut Yield,
)
    ensures { out.new ≡ cited_all out.old (map (Out var) (filter (λ g. (V.seen view.now).out var g
        && is_grain_with plan.now var (T.passes test.now) g) (option_to_list grain))) }
{
    if let Some(grain) = grain {
        let cites = is_out_with(plan, view, var, test, grain);
        cite_if(cites, Atom::Out(var, grain), out);
    }
}

// The same, where all are gone through.
fn cite_outs_among<V: View, T: Test>(plan: &Plan, view: &V, var: u32, test: &T, out: &mut Yield)
    requires { GrainsFit plan.now }
    ensures { out.new ≡ cited_all out.old (outs_with plan.now (V.seen view.now) var (T.passes test.now)) }
{
    let count = grain_count(plan, var);
    let mut grain = 0;
    while grain < count {
        let cites = is_out_with(plan, view, var, test, grain);
        cite_if(cites, Atom::Out(var, grain), out);
        grain += 1;
    }
}

// Whether the grain is out and passes the test.
fn is_out_with<V: View, T: Test>(plan: &Plan, view: &V, var: u32, test: &T, grain: u32) -> bool
    ensures { result ≡ (V.seen view.now).out var grain
        && is_grain_with plan.now var (T.passes test.now) grain }
{
    view.out(var, grain) && is_grain_with(plan, var, test, grain)
}

fn cite_if(cites: bool, atom: Atom, out: &mut Yield)
    ensures { out.new ≡ (if cites then cited out.old atom else out.old) }
{
    if cites {
        out.cite(atom);
    }
}
