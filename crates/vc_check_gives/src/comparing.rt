//! Comparisons of two terms.

ghost use Rattle.std.specs.Prelude.{◌≡◌, ◌^◌, ◌<◌};
ghost use Rattle.vc_plan.specs.Domains.{atom_count};
ghost use Rattle.vc_plan.specs.Kleene.{is_false};
ghost use Rattle.vc_plan.specs.Restrictions.{compare, lone_inferred, related};
ghost use Rattle.vc_plan_values.specs.Computing.{LiesInGrains, TermsFit};
ghost use Rattle.vc_plan_values.specs.Values.{meant_if};
ghost use Rattle.vc_check_gives.specs.Parts.{given_by, part_given};

use crate::confining::confined;
use crate::parts::{Part, Parts};
use crate::tests::Test;
use vc_check_truth::term_value;
use vc_plan::{Plan, Relation, Rule, View};
use vc_plan_values::{TermValue, compared, is_false, lone_inferred, turned};

fn related<'a, V: View>(
    plan: &Plan,
    view: &V,
    relation: Relation,
    var: Option<u32>,
    value: Option<TermValue>,
) -> Part<'a>
    requires { atom_count plan.now < 2 ^ 32 }
    ensures { part_given plan.now result ≡ related plan.now (V.seen view.now) relation var (meant_if value) }
{
    match (var, value) {
        (Some(var), Some(value)) => confined(plan, view, var, Test::NotOutside(relation, value)),
        _ => Part::Nothing,
    }
}

/// What is said where the first term is to stand in the relation to the second.
pub fn compare<'a, V: View>(
    plan: &Plan,
    view: &V,
    rule: &Rule,
    relation: Relation,
    left: u32,
    right: u32,
) -> Parts<'a>
    requires fit { TermsFit plan.now }
    requires values { LiesInGrains plan.now (V.seen view.now) }
    requires few { atom_count plan.now < 2 ^ 32 }
    ensures { given_by plan.now result ≡ compare plan.now (V.seen view.now) rule.now relation left right }
{
    let first = term_value(plan, view, left);
    let second = term_value(plan, view, right);
    if is_false(compared(relation, first, second)) {
        return Parts::Alone(Part::Clash);
    }
    let of_left = lone_inferred(plan, rule, left);
    let of_right = lone_inferred(plan, rule, right);
    Parts::Both(
        related(plan, view, relation, of_left, second),
        related(plan, view, turned(relation), of_right, first),
    )
}
