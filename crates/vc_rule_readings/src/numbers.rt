//! The values of terms.

ghost use Rattle.std.specs.Prelude.{◌≡◌};
ghost use Rattle.vc_plan.specs.Truth.{number, term_value};
ghost use Rattle.vc_plan_values.specs.Computing.{Computes};
ghost use Rattle.vc_plan_values.specs.Values.{meant_if, count_if};

use crate::facts::Facts;
use vc_plan::Term;
use vc_plan_values::TermValue;
use vc_plan_values::numbers::{applied, joined};
use vc_plan_values::values::{number_of_value, of_value, of_value_if, value_of_number};
use vc_value_wide::Wide;

/// The number of the term, where it has one.
pub fn number<F: Facts>(facts: &F, term: &Term) -> Option<Wide>
    requires sums { F.can_sum facts.now }
    requires computes { Computes (F.reading facts.now) term.now }
    ensures { count_if result ≡ number (F.reading facts.now) term.now }
{
    match term {
        Term::Literal(value) => number_of_value(Some(*value)),
        Term::Read(var) => number_of_value(facts.value(*var)),
        Term::PartSum {
            slot,
            characteristic,
        } => facts.part_sum(*slot, *characteristic),
        Term::PartCount(slot) => facts.part_count(*slot),
        Term::Applied(function, inner) => applied(*function, number(facts, inner)),
        Term::Joined(operator, left, right) => joined(
            *operator,
            number(facts, left),
            number(facts, right),
        ),
    }
}

/// The value of the term, which may be a text where it is a lone literal or variable.
pub fn term_value<F: Facts>(facts: &F, term: &Term) -> Option<TermValue>
    requires sums { F.can_sum facts.now }
    requires computes { Computes (F.reading facts.now) term.now }
    ensures { meant_if result ≡ term_value (F.reading facts.now) term.now }
{
    match term {
        Term::Literal(value) => Some(of_value(*value)),
        Term::Read(var) => of_value_if(facts.value(*var)),
        _ => value_of_number(number(facts, term)),
    }
}
