//! Citing why a rule acts.

ghost use Rattle.std.specs.Prelude.{◌≡◌, map};
ghost use Rattle.vc_plan.specs.declared.atoms.Atom.TheVariants.{Here};
ghost use Rattle.vc_plan.specs.Readings.{net_reading};
ghost use Rattle.vc_plan.specs.Reads.{vars_in};
ghost use Rattle.vc_plan_values.specs.Computing.{TermsFit, LiesInGrains, ConditionComputes};
ghost use Rattle.vc_rule_premises.specs.Citing.{cited_all, value_of, values_of, why_it_acts};
ghost use Rattle.vc_rule_premises.specs.Deciding.{deciding};

use vc_plan::{Atom, Condition, Kleene, Term, View};
use vc_rule_terms::conditions;
use vc_rule_yield::Yield;

/// Cites the value of the variable, if it has one.
pub fn cite_value<V: View>(view: &V, var: u32, out: &mut Yield)
    ensures { out.new ≡ cited_all out.old (value_of (V.seen view.now) var) }
{
    if let Some(value) = view.value(var) {
        out.cite(Atom::Is(var, value));
    }
}

/// Cites the values of the variables that the term reads.
pub fn cite_term<V: View>(view: &V, term: &Term, out: &mut Yield)
    ensures { out.new ≡ cited_all out.old (values_of (V.seen view.now) (vars_in term.now)) }
{
    match term {
        Term::Read(var) => cite_value(view, *var, out),
        Term::Applied(_, inner) => cite_term(view, inner, out),
        Term::Joined(_, left, right) => {
            cite_term(view, left, out);
            cite_term(view, right, out);
        }
        _ => {}
    }
}

// Cites the same for a side of a comparison: one is mostly a literal, which reads nothing.
#[inline(always)]
fn cite_side<V: View>(view: &V, term: &Term, out: &mut Yield)
    ensures { out.new ≡ cited_all out.old (values_of (V.seen view.now) (vars_in term.now)) }
{
    match term {
        Term::Literal(_) => {}
        _ => cite_term(view, term, out),
    }
}

/// Cites the values that make the condition true, or false.
pub fn cite_deciding<V: View>(view: &V, so: bool, condition: &Condition, out: &mut Yield)
    requires { ConditionComputes (net_reading (V.seen view.now)) condition.now }
    ensures { out.new ≡ cited_all out.old (values_of (V.seen view.now) (deciding (net_reading (V.seen view.now)) so
        condition.now)) }
{
    match condition {
        Condition::Always => {}
        Condition::Compared(_, left, right) => {
            cite_side(view, left, out);
            cite_side(view, right, out);
        }
        Condition::IsIn(var, _) => cite_value(view, *var, out),
        Condition::Specified(var) => cite_value(view, *var, out),
        Condition::Holds { .. } => {}
        Condition::Filled(_) => {}
        Condition::Not(inner) => cite_deciding(view, !so, inner, out),
        Condition::And(left, right) => {
            if so {
                cite_deciding(view, so, left, out);
                cite_deciding(view, so, right, out);
            } else if conditions::truth(view, left) == Kleene::False {
                cite_deciding(view, so, left, out);
            } else {
                cite_deciding(view, so, right, out);
            }
        }
        Condition::Or(left, right) => {
            if !so {
                cite_deciding(view, so, left, out);
                cite_deciding(view, so, right, out);
            } else if conditions::truth(view, left) == Kleene::True {
                cite_deciding(view, so, left, out);
            } else {
                cite_deciding(view, so, right, out);
            }
        }
    }
}
