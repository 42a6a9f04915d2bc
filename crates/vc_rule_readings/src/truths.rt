//! The truth of conditions.

ghost use Rattle.std.specs.Prelude.{◌≡◌};
ghost use Rattle.vc_plan.specs.Truth.{truth};
ghost use Rattle.vc_plan_values.specs.Computing.{ConditionComputes};

use crate::facts::Facts;
use crate::numbers::term_value;
use vc_plan::{Condition, Kleene};
use vc_plan_values::truths::{compared, conjunction, disjunction, is_in, negation};

/// The truth of the condition.
pub fn truth<F: Facts>(facts: &F, condition: &Condition) -> Kleene
    requires sums { F.can_sum facts.now }
    requires computes { ConditionComputes (F.reading facts.now) condition.now }
    ensures { result ≡ truth (F.reading facts.now) condition.now }
{
    match condition {
        Condition::Always => Kleene::True,
        Condition::Compared(relation, left, right) => {
            compared(*relation, term_value(facts, left), term_value(facts, right))
        }
        Condition::IsIn(var, pieces) => is_in(pieces.as_slice(), facts.value(*var)),
        Condition::Specified(var) => facts.specified(*var),
        Condition::Holds { set, text } => facts.holds(*set, *text),
        Condition::Filled(set) => facts.filled(*set),
        Condition::Not(inner) => negation(truth(facts, inner)),
        Condition::And(left, right) => conjunction(truth(facts, left), truth(facts, right)),
        Condition::Or(left, right) => disjunction(truth(facts, left), truth(facts, right)),
    }
}
