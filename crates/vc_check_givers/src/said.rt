//! What givers say and give.

ghost use Rattle.std.specs.Prelude.{◌≡◌, ◌^◌, ◌<◌, ◌&&◌, slice_get, Some};
ghost use Rattle.std.specs.List.{list_all};
ghost use Rattle.vc_base.specs.Rounds.{atoms_of, is_clash};
ghost use Rattle.vc_base.specs.Sets.{has};
ghost use Rattle.vc_plan.specs.Domains.{atom_count};
ghost use Rattle.vc_plan.specs.Gives.{acts, giver_says, gives, kind_gives, rule_says};
ghost use Rattle.vc_plan.specs.Kleene.{is_true};
ghost use Rattle.vc_plan.specs.Seen.{same_atom};
ghost use Rattle.vc_plan_reasons.specs.Checking.{is_silent};
ghost use Rattle.vc_plan_values.specs.Computing.{LiesInGrains, TermsFit};
ghost use Rattle.vc_check_gives.specs.Parts.{all_said};
ghost use Rattle.vc_check_givers.specs.Givers.{giver_meant, said_given};

use crate::givers::Giver;
use vc_check_board::clear::says;
use vc_check_gives::comparing::compare;
use vc_check_gives::equating::equate;
use vc_check_gives::kinds::{among, if_here, last, line, of_entry, of_user};
use vc_check_gives::{Part, Parts, parts};
use vc_check_table as tables;
use vc_check_truth::truth;
use vc_plan::{Atom, Binding, Kind, Plan, Rule, View, element};
use vc_plan_sources::Sources;
use vc_plan_values::is_true;

/// What a giver says: parts, or a table call of the rule.
#[derive(Clone, Copy)]
pub enum Said<'a> {
    Of(Parts<'a>),
    ByTable(&'a Rule, u32, &'a [Binding]),
}

fn are_here<V: View>(view: &V, slots: &[u32]) -> bool
    ensures { result ≡ list_all (V.seen view.now).here slots.now }
{
    let mut rest = slots;
    while let [slot, more @ ..] = rest {
        if !view.here(*slot) {
            return false;
        }
        rest = more;
    }
    true
}

fn acts<V: View>(plan: &Plan, view: &V, rule: &Rule) -> bool
    requires fit { TermsFit plan.now }
    requires values { LiesInGrains plan.now (V.seen view.now) }
    ensures { result ≡ acts plan.now (V.seen view.now) rule.now }
{
    are_here(view, rule.slots.as_slice()) && is_true(truth(plan, view, rule.condition))
}

fn kind_says<'a, V: View>(plan: &Plan, view: &V, rule: &'a Rule) -> Said<'a>
    requires fit { TermsFit plan.now }
    requires values { LiesInGrains plan.now (V.seen view.now) }
    requires few { atom_count plan.now < 2 ^ 32 }
    ensures { said_given plan.now (V.seen view.now) result ≡ kind_gives plan.now (V.seen view.now) rule.now
        rule.now.kind }
{
    match &rule.kind {
        Kind::Among(var, restriction) => {
            Said::Of(Parts::Alone(among(plan, view, rule, *var, restriction)))
        }
        Kind::Compare {
            relation,
            left,
            right,
        } => Said::Of(compare(plan, view, rule, *relation, *left, *right)),
        Kind::Equate { left, right } => Said::Of(equate(plan, view, rule, *left, *right)),
        Kind::ByTable { table, columns } => Said::ByTable(rule, *table, columns.as_slice()),
        Kind::Never => Said::Of(Parts::Alone(Part::Clash)),
        Kind::Last(var) => Said::Of(Parts::Alone(last(plan, view, *var))),
        Kind::Line(slot) => Said::Of(Parts::Alone(line(plan, view, *slot))),
    }
}

fn acting_says<'a, V: View>(plan: &Plan, view: &V, rule: &'a Rule) -> Said<'a>
    requires fit { TermsFit plan.now }
    requires values { LiesInGrains plan.now (V.seen view.now) }
    requires few { atom_count plan.now < 2 ^ 32 }
    ensures { said_given plan.now (V.seen view.now) result ≡ rule_says plan.now (V.seen view.now) (Some rule.now) }
{
    if acts(plan, view, rule) {
        kind_says(plan, view, rule)
    } else {
        Said::Of(Parts::Alone(Part::Nothing))
    }
}

fn rule_says<'a, V: View>(plan: &'a Plan, view: &V, rule: u32) -> Said<'a>
    requires fit { TermsFit plan.now }
    requires values { LiesInGrains plan.now (V.seen view.now) }
    requires few { atom_count plan.now < 2 ^ 32 }
    ensures { said_given plan.now (V.seen view.now) result ≡ rule_says plan.now (V.seen view.now)
        (slice_get plan.now.rules rule) }
{
    match element(plan.rules.as_slice(), rule) {
        Some(rule) => acting_says(plan, view, rule),
        None => Said::Of(Parts::Alone(Part::Nothing)),
    }
}

fn giver_said<'a, V: View>(plan: &'a Plan, sources: &Sources, view: &V, giver: Giver) -> Said<'a>
    requires fit { TermsFit plan.now }
    requires values { LiesInGrains plan.now (V.seen view.now) }
    requires few { atom_count plan.now < 2 ^ 32 }
    ensures { said_given plan.now (V.seen view.now) result ≡ giver_says plan.now sources.now (giver_meant giver)
        (V.seen view.now) }
{
    match giver {
        Giver::Rule(rule) => rule_says(plan, view, rule),
        Giver::User(var) => {
            let part = of_user(plan, var, sources.user(var));
            Said::Of(Parts::Alone(if_here(plan, view, var, part)))
        }
        Giver::Entry(var) => {
            let part = of_entry(plan, var, sources.written(var));
            Said::Of(Parts::Alone(if_here(plan, view, var, part)))
        }
    }
}

fn is_clash<'a, V: View>(plan: &Plan, view: &V, said: Said<'a>) -> bool
    requires { atom_count plan.now < 2 ^ 32 }
    ensures { result ≡ is_clash (said_given plan.now (V.seen view.now) said.entry) }
{
    match said {
        Said::Of(of) => parts::clashes(plan, of),
        Said::ByTable(rule, table, columns) => tables::clashes(plan, view, rule, table, columns),
    }
}

fn is_among<'a, V: View>(plan: &Plan, view: &V, said: Said<'a>, atom: Atom) -> bool
    requires { atom_count plan.now < 2 ^ 32 }
    ensures { result ≡ has same_atom (atoms_of (said_given plan.now (V.seen view.now) said.entry)) atom }
{
    match said {
        Said::Of(of) => parts::gives(plan, of, atom),
        Said::ByTable(rule, table, columns) => {
            tables::gives(plan, view, rule, table, columns, atom)
        }
    }
}

fn are_said<'a, V: View>(plan: &Plan, view: &V, said: Said<'a>) -> bool
    requires { atom_count plan.now < 2 ^ 32 }
    ensures { result ≡ all_said (V.seen view.now) (said_given plan.now (V.seen view.now) said.entry) }
{
    match said {
        Said::Of(of) => parts::are_said(plan, view, of),
        Said::ByTable(rule, table, columns) => tables::are_said(plan, view, rule, table, columns),
    }
}

/// Whether the giver clashes.
#[tactic(auto, using(crate::proofs::FreshLemmas::clash_fresh))]
pub fn clashes<V: View>(plan: &Plan, sources: &Sources, view: &V, giver: Giver) -> bool
    requires fit { TermsFit plan.now }
    requires values { LiesInGrains plan.now (V.seen view.now) }
    requires few { atom_count plan.now < 2 ^ 32 }
    ensures { result ≡ is_clash (gives plan.now sources.now (giver_meant giver) (V.seen view.now)) }
{
    is_clash(plan, view, giver_said(plan, sources, view, giver))
}

/// Whether the giver gives the atom, which isn't said yet.
#[tactic(auto, using(crate::proofs::FreshLemmas::has_fresh))]
pub fn gives<V: View>(plan: &Plan, sources: &Sources, view: &V, giver: Giver, atom: Atom) -> bool
    requires fit { TermsFit plan.now }
    requires values { LiesInGrains plan.now (V.seen view.now) }
    requires few { atom_count plan.now < 2 ^ 32 }
    ensures { result ≡ has same_atom (atoms_of (gives plan.now sources.now (giver_meant giver) (V.seen view.now)))
        atom }
{
    !says(view, atom) && is_among(plan, view, giver_said(plan, sources, view, giver), atom)
}

/// Whether the giver gives nothing, and doesn't clash.
#[tactic(auto, using(crate::proofs::FreshLemmas::silent_fresh))]
pub fn is_silent<V: View>(plan: &Plan, sources: &Sources, view: &V, giver: Giver) -> bool
    requires fit { TermsFit plan.now }
    requires values { LiesInGrains plan.now (V.seen view.now) }
    requires few { atom_count plan.now < 2 ^ 32 }
    ensures { result ≡ is_silent (gives plan.now sources.now (giver_meant giver) (V.seen view.now)) }
{
    are_said(plan, view, giver_said(plan, sources, view, giver))
}
