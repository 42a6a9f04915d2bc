//! Whom facts blame.

ghost use Rattle.std.specs.Prelude.{◌≡◌, slice_get};
ghost use Rattle.vc_plan_reasons.specs.Refuting.{is_of_constraint, is_restriction};
ghost use Rattle.vc_plan.specs.declared.atoms.Origin.TheVariants.{Rule};
ghost use Rattle.vc_plan_blame.specs.Blame.{culprit_from};
ghost use Rattle.vc_net_blame.specs.Finding.{culprit_by};
ghost use Rattle.vc_net_blame.specs.Searching.{first_blamed, last_origin, origin_at, origin_in};

use vc_net_standing::{Fact, Standing};
use vc_plan::{Atom, Culprit, Kind, Origin, Plan, element};
use vc_rule_yield::same_atom;

/// Whom the first of the atoms blames of which somebody is to blame, where the last fact comes beside what stands.
pub fn first_blamed(plan: &Plan, standing: &Standing, last: Fact, atoms: &[Atom]) -> Option<Culprit>
    ensures { result ≡ first_blamed plan.now standing.now.facts last atoms.now }
{
    let mut rest = atoms;
    while let [atom, more @ ..] = rest {
        if let Some(culprit) = culprit_at(plan, standing, last, *atom) {
            return Some(culprit);
        }
        rest = more;
    }
    None
}

fn culprit_at(plan: &Plan, standing: &Standing, last: Fact, atom: Atom) -> Option<Culprit>
    ensures { result ≡ culprit_by plan.now (origin_at standing.now.facts last atom) }
{
    match origin_at(standing, last, atom) {
        Some(origin) => culprit_from(plan, origin),
        None => None,
    }
}

// Who gave the atom: the first fact of it, or the last.
fn origin_at(standing: &Standing, last: Fact, atom: Atom) -> Option<Origin>
    ensures { result ≡ origin_at standing.now.facts last atom }
{
    match standing.number_of(atom) {
        Some(number) => origin_in(standing.facts(), number),
        None => last_origin(last, atom),
    }
}

fn origin_in(facts: &[Fact], number: usize) -> Option<Origin>
    ensures { result ≡ origin_in facts.now number }
{
    match facts.get(number) {
        Some(fact) => Some(fact.origin),
        None => None,
    }
}

fn last_origin(last: Fact, atom: Atom) -> Option<Origin>
    ensures { result ≡ last_origin last atom }
{
    if same_atom(atom, last.atom) {
        Some(last.origin)
    } else {
        None
    }
}

fn culprit_from(plan: &Plan, origin: Origin) -> Option<Culprit>
    ensures { result ≡ culprit_from plan.now origin }
{
    match origin {
        Origin::Rule(rule) => culprit_of_rule(plan, rule),
        Origin::User => None,
        Origin::Written { proc, statement } => Some(Culprit::Written { proc, statement }),
    }
}

fn culprit_of_rule(plan: &Plan, rule: u32) -> Option<Culprit>
    ensures { result ≡ culprit_from plan.now (Rule rule) }
{
    if is_of_constraint(plan, rule) {
        Some(Culprit::Rule(rule))
    } else {
        None
    }
}

fn is_of_constraint(plan: &Plan, rule: u32) -> bool
    ensures { result ≡ is_of_constraint (slice_get plan.now.rules rule) }
{
    match element(plan.rules.as_slice(), rule) {
        Some(rule) => is_restriction(&rule.kind),
        None => false,
    }
}

fn is_restriction(kind: &Kind) -> bool
    ensures { result ≡ is_restriction kind.now }
{
    match kind {
        Kind::Last(_) => false,
        Kind::Line(_) => false,
        _ => true,
    }
}
