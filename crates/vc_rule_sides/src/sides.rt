//! The sides of a comparison: what they read, which variable one is, and what is said of it from the other.

ghost use Rattle.std.specs.Prelude.{◌≡◌, ◌++◌};
ghost use Rattle.vc_base.specs.Rounds.{is_clash};
ghost use Rattle.vc_plan.specs.Restrictions.{confined};
ghost use Rattle.vc_rule_premises.specs.Citing.{cited_all};
ghost use Rattle.vc_rule_premises.specs.Saying.{said_from, taken};
ghost use Rattle.vc_rule_grains.specs.Confining.{why_confined};
ghost use Rattle.vc_rule_grains.specs.Finding.{GrainsFit};
ghost use Rattle.vc_rule_sides.specs.Comparing.{values_in};

use vc_plan::{Plan, View, element};
use vc_plan_values::is_restrictable;
use vc_rule_grains::remaining::{Remaining, remaining_of};
use vc_rule_grains::{Test, confine};
use vc_rule_premises::cite_term;
use vc_rule_yield::Yield;

/// Cites the values of the variables that the plan's term of this number reads.
pub fn cite_values<V: View>(plan: &Plan, view: &V, term: u32, out: &mut Yield)
    ensures { out.new ≡ cited_all out.old (values_in plan.now (V.seen view.now) term) }
{
    if let Some(term) = element(plan.terms.as_slice(), term) {
        cite_term(view, term, out);
    }
}

/// Whether no grain that passes the test is left of the variable, where it isn't restrictable.
pub fn is_ruled_out<V: View, T: Test>(plan: &Plan, view: &V, var: u32, test: &T) -> bool
    requires { GrainsFit plan.now }
    ensures { result ≡ is_clash (confined plan.now (V.seen view.now) var (T.passes test.now)) }
{
    if is_restrictable(plan, var) {
        return false;
    }
    match remaining_of(plan, view, var, view.value(var), test) {
        Remaining::Nothing => true,
        Remaining::One(_) => false,
        Remaining::Several => false,
    }
}

/// Says what follows where the variable is to lie in grains that pass the test, as that is the
/// case by the values that the other side reads.
pub fn confine_by<V: View, T: Test>(
    plan: &Plan,
    view: &V,
    var: u32,
    test: &T,
    other: u32,
    out: &mut Yield,
)
    requires { GrainsFit plan.now }
    ensures { out.new ≡ taken out.old (said_from (V.seen view.now)
        (values_in plan.now (V.seen view.now) other ++ why_confined plan.now (V.seen view.now) var (T.passes test.now))
        (confined plan.now (V.seen view.now) var (T.passes test.now))) }
{
    let cited = out.cited_count();
    cite_values(plan, view, other, out);
    confine(plan, view, var, test, out);
    if !is_ruled_out(plan, view, var, test) {
        out.keep_cited(cited);
    }
}
