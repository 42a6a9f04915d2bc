//! Comparisons of two terms.

ghost use Rattle.std.specs.Prelude.{◌≡◌, ◌++◌, IfSome};
ghost use Rattle.vc_base.specs.Rounds.{is_clash};
ghost use Rattle.vc_plan.specs.Kleene.{is_false};
ghost use Rattle.vc_plan_values.specs.Computing.{TermsFit, LiesInGrains};
ghost use Rattle.vc_plan_values.specs.Values.{meant};
ghost use Rattle.vc_rule_premises.specs.Saying.{clashing, together, taken};
ghost use Rattle.vc_rule_grains.specs.Finding.{GrainsFit, PassesOnly};
ghost use Rattle.vc_rule_sides.specs.Comparing.{may_relate, values_in, compare_said};
ghost use Rattle.vc_rule_sides.specs.Sides.{side_given, side_said};

use crate::sides::{cite_values, confine_by, is_ruled_out};
use vc_plan::{Piece, Plan, Relation, Rule, View};
use vc_plan_values::{
    TermValue, compared, is_false, is_inside, lone_inferred, opposite, stored_value, turned,
};
use vc_rule_grains::Test;
use vc_rule_terms::term_value;
use vc_rule_yield::Yield;
use vc_value::Value;

/// What may stand in the relation to the value.
#[derive(Clone, Copy)]
pub struct MayRelate {
    pub relation: Relation,
    pub value: TermValue,
}

impl Test for MayRelate {
    ghost use Rattle.vc_plan_values.specs.Values.{meant};
    ghost use Rattle.vc_rule_sides.specs.Comparing.{may_relate};

    ghost passes = { λ s. may_relate s.relation (meant s.value) };

    fn passes(&self, piece: Piece) -> bool {
        !is_inside(opposite(self.relation), self.value, piece)
    }

    fn only(&self) -> Option<Value> {
        only_equal(self.relation, self.value)
    }
}

// The value that all has that may stand in the relation to this one: at `=` this one.
#[tactic(auto, using(crate::proofs::AssignLemmas::equal_only))]
fn only_equal(relation: Relation, value: TermValue) -> Option<Value>
    ensures { IfSome result (PassesOnly (may_relate relation (meant value))) }
{
    match relation {
        Relation::Equal => stored_value(value),
        _ => None,
    }
}

/// A side of a comparison, as it stands to the other.
#[derive(Clone, Copy)]
pub struct Side {
    pub relation: Relation,
    /// The variable that it is, if it is one alone that may be narrowed.
    pub var: Option<u32>,
    /// The other side's value, if it has one.
    pub value: Option<TermValue>,
    /// The other side's term, by its number.
    pub other: u32,
}

// Whether what follows for the side's variable is a clash.
fn is_clash<V: View>(plan: &Plan, view: &V, side: Side) -> bool
    requires { GrainsFit plan.now }
    ensures { result ≡ is_clash (side_given plan.now (V.seen view.now) side) }
{
    match (side.var, side.value) {
        (Some(var), Some(value)) => {
            let test = MayRelate {
                relation: side.relation,
                value,
            };
            is_ruled_out(plan, view, var, &test)
        }
        _ => false,
    }
}

// Says what follows for the side's variable from the other side's value.
fn say_side<V: View>(plan: &Plan, view: &V, side: Side, out: &mut Yield)
    requires { GrainsFit plan.now }
    ensures { out.new ≡ taken out.old (side_said plan.now (V.seen view.now) side) }
{
    if let (Some(var), Some(value)) = (side.var, side.value) {
        let test = MayRelate {
            relation: side.relation,
            value,
        };
        confine_by(plan, view, var, &test, side.other, out);
    }
}

// Says what follows for both sides: where one clashes, that clash alone.
fn say_sides<V: View>(plan: &Plan, view: &V, first: Side, second: Side, out: &mut Yield)
    requires { GrainsFit plan.now }
    ensures { out.new ≡ taken out.old (together
        (side_said plan.now (V.seen view.now) first) (side_said plan.now (V.seen view.now) second)) }
{
    if is_clash(plan, view, first) {
        say_side(plan, view, first, out);
    } else if is_clash(plan, view, second) {
        say_side(plan, view, second, out);
    } else {
        say_side(plan, view, first, out);
        say_side(plan, view, second, out);
    }
}

/// Tells a clash by the values of both sides.
pub fn clash_by_values<V: View>(plan: &Plan, view: &V, left: u32, right: u32, out: &mut Yield)
    ensures { out.new ≡ taken out.old (clashing (values_in plan.now (V.seen view.now) left
        ++ values_in plan.now (V.seen view.now) right)) }
{
    cite_values(plan, view, left, out);
    cite_values(plan, view, right, out);
    out.clash_now();
}

/// Puts what a comparison says into the yield: a clash where the relation doesn't hold, else what
/// follows for a side that is a lone inferred variable, but for what stands already.
pub fn say_compare<V: View>(
    plan: &Plan,
    view: &V,
    rule: &Rule,
    relation: Relation,
    left: u32,
    right: u32,
    out: &mut Yield,
)
    requires fit { TermsFit plan.now }
    requires values { LiesInGrains plan.now (V.seen view.now) }
    requires grains { GrainsFit plan.now }
    ensures { out.new ≡ taken out.old (compare_said plan.now (V.seen view.now) rule.now relation left right) }
{
    let first = term_value(plan, view, left);
    let second = term_value(plan, view, right);
    if is_false(compared(relation, first, second)) {
        clash_by_values(plan, view, left, right, out);
    } else {
        let of_left = Side {
            relation,
            var: lone_inferred(plan, rule, left),
            value: second,
            other: right,
        };
        let of_right = Side {
            relation: turned(relation),
            var: lone_inferred(plan, rule, right),
            value: first,
            other: left,
        };
        say_sides(plan, view, of_left, of_right, out);
    }
}
