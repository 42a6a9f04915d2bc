//! Equations of two terms.

ghost use Rattle.std.specs.Prelude.{◌≡◌, ◌<◌, ◌∷◌, [], ◌&&◌, is_none};
ghost use Rattle.vc_base.specs.Rounds.{atoms, is_clash};
ghost use Rattle.vc_plan.specs.Readings.{net_reading};
ghost use Rattle.vc_plan.specs.Restrictions.{lone, lone_inferred};
ghost use Rattle.vc_plan.specs.Truth.{number_of_value, value_at};
ghost use Rattle.vc_plan_values.specs.Computing.{TermsFit, LiesInGrains, ArgumentFits};
ghost use Rattle.vc_plan_values.specs.Values.{meant_if};
ghost use Rattle.vc_rule_premises.specs.Saying.{said_from, taken, together};
ghost use Rattle.vc_rule_sides.specs.Assigning.{assigned_given, equal_side_said};
ghost use Rattle.vc_rule_sides.specs.Comparing.{values_in};
ghost use Rattle.vc_rule_sides.specs.Equating.{equate_said};

use crate::assigning::{Assigned, equal_to};
use crate::comparing::clash_by_values;
use crate::sides::cite_values;
use vc_plan::{Atom, Plan, Rule, View};
use vc_plan_values::rounding::{decimals_of_sides, differ};
use vc_plan_values::{TermValue, lone, lone_inferred};
use vc_rule_grains::grains::stands;
use vc_rule_terms::term_value;
use vc_rule_yield::Yield;

/// A side of an equation.
#[derive(Clone, Copy)]
pub struct EqualSide {
    /// What follows for the variable that it is, if it is one alone that may be narrowed.
    pub assigned: Assigned,
    /// The other side's term, by its number.
    pub other: u32,
}

// The value of a side: its number can be rounded.
fn value_of_side<V: View>(plan: &Plan, view: &V, term: u32) -> Option<TermValue>
    requires fit { TermsFit plan.now }
    requires values { LiesInGrains plan.now (V.seen view.now) }
    ensures is { meant_if result ≡ value_at plan.now (net_reading (V.seen view.now)) term }
    ensures small { ArgumentFits (number_of_value (meant_if result)) }
{
    term_value(plan, view, term)
}

fn is_clash(assigned: Assigned) -> bool
    ensures { result ≡ is_clash (assigned_given assigned) }
{
    match assigned {
        Assigned::NoGrain => true,
        _ => false,
    }
}

// Says the atom from the values of the other side, where it doesn't stand yet.
fn say_atom<V: View>(plan: &Plan, view: &V, atom: Atom, other: u32, out: &mut Yield)
    ensures { out.new ≡ taken out.old (said_from (V.seen view.now) (values_in plan.now (V.seen view.now) other)
        (atoms (atom ∷ []))) }
{
    if !stands(view, atom) {
        let count = out.cited_count();
        cite_values(plan, view, other, out);
        out.conclude(atom);
        out.keep_cited(count);
    }
}

// Says what follows for the side's variable from the values of the other side.
fn say_side<V: View>(plan: &Plan, view: &V, side: EqualSide, out: &mut Yield)
    ensures { out.new ≡ taken out.old (equal_side_said plan.now (V.seen view.now) side) }
{
    match side.assigned {
        Assigned::Nothing => {}
        Assigned::NoGrain => {
            cite_values(plan, view, side.other, out);
            out.clash_now();
        }
        Assigned::To(var, value) => say_atom(plan, view, Atom::Is(var, value), side.other, out),
    }
}

// Says what follows for both sides: where one clashes, that clash alone.
fn say_sides<V: View>(plan: &Plan, view: &V, first: EqualSide, second: EqualSide, out: &mut Yield)
    ensures { out.new ≡ taken out.old (together
        (equal_side_said plan.now (V.seen view.now) first) (equal_side_said plan.now (V.seen view.now) second)) }
{
    if is_clash(first.assigned) {
        say_side(plan, view, first, out);
    } else if is_clash(second.assigned) {
        say_side(plan, view, second, out);
    } else {
        say_side(plan, view, first, out);
        say_side(plan, view, second, out);
    }
}

fn are_none(left: Option<u32>, right: Option<u32>) -> bool
    ensures { result ≡ is_none left && is_none right }
{
    left.is_none() && right.is_none()
}

/// Puts what an equation says into the yield: a clash where no side may be narrowed and their
/// values differ with the fewer decimals of both, else what follows for a side that is a lone
/// inferred variable, but for what stands already.
pub fn say_equate<V: View>(
    plan: &Plan,
    view: &V,
    rule: &Rule,
    left: u32,
    right: u32,
    out: &mut Yield,
)
    requires fit { TermsFit plan.now }
    requires values { LiesInGrains plan.now (V.seen view.now) }
    ensures { out.new ≡ taken out.old (equate_said plan.now (V.seen view.now) rule.now left right) }
{
    let first = value_of_side(plan, view, left);
    let second = value_of_side(plan, view, right);
    let left_var = lone_inferred(plan, rule, left);
    let right_var = lone_inferred(plan, rule, right);
    let decimals = decimals_of_sides(plan, lone(plan, left), lone(plan, right));
    if are_none(left_var, right_var) && differ(decimals, first, second) {
        clash_by_values(plan, view, left, right, out);
    } else {
        let of_left = EqualSide {
            assigned: equal_to(plan, left_var, second),
            other: right,
        };
        let of_right = EqualSide {
            assigned: equal_to(plan, right_var, first),
            other: left,
        };
        say_sides(plan, view, of_left, of_right, out);
    }
}
