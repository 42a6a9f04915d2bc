//! The truth of conditions.

ghost use Rattle.std.specs.Prelude.{◌≡◌};
ghost use Rattle.vc_plan.specs.Readings.{net_reading};
ghost use Rattle.vc_plan.specs.Truth.{truth};
ghost use Rattle.vc_plan_values.specs.Computing.{ConditionComputes};

use crate::numbers::term_value;
use vc_plan::{Condition, Kleene, View};
use vc_plan_values::truths::{compared, conjunction, disjunction, is_in, negation, specified};

/// The truth of the condition.
pub fn truth<V: View>(view: &V, condition: &Condition) -> Kleene
    requires { ConditionComputes (net_reading (V.seen view.now)) condition.now }
    ensures { result ≡ truth (net_reading (V.seen view.now)) condition.now }
{
    match condition {
        Condition::Always => Kleene::True,
        Condition::Compared(relation, left, right) => {
            compared(*relation, term_value(view, left), term_value(view, right))
        }
        Condition::IsIn(var, pieces) => is_in(pieces.as_slice(), view.value(*var)),
        Condition::Specified(var) => specified(view.value(*var)),
        Condition::Holds { .. } => Kleene::Unknown,
        Condition::Filled(_) => Kleene::Unknown,
        Condition::Not(inner) => negation(truth(view, inner)),
        Condition::And(left, right) => conjunction(truth(view, left), truth(view, right)),
        Condition::Or(left, right) => disjunction(truth(view, left), truth(view, right)),
    }
}
