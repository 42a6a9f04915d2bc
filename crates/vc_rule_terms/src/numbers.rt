//! The values of terms.

ghost use Rattle.std.specs.Prelude.{◌≡◌};
ghost use Rattle.vc_plan.specs.Readings.{net_reading};
ghost use Rattle.vc_plan.specs.Truth.{number, term_value};
ghost use Rattle.vc_plan_values.specs.Computing.{Computes};
ghost use Rattle.vc_plan_values.specs.Values.{meant_if, count_if};

use vc_plan::{Term, View};
use vc_plan_values::TermValue;
use vc_plan_values::numbers::{applied, joined};
use vc_plan_values::values::{number_of_value, of_value, of_value_if, value_of_number};
use vc_value_wide::Wide;

/// The number of the term, where it has one.
pub fn number<V: View>(view: &V, term: &Term) -> Option<Wide>
    requires { Computes (net_reading (V.seen view.now)) term.now }
    ensures { count_if result ≡ number (net_reading (V.seen view.now)) term.now }
{
    match term {
        Term::Literal(value) => number_of_value(Some(*value)),
        Term::Read(var) => number_of_value(view.value(*var)),
        Term::PartSum { .. } => None,
        Term::PartCount(_) => None,
        Term::Applied(function, inner) => applied(*function, number(view, inner)),
        Term::Joined(operator, left, right) => joined(
            *operator,
            number(view, left),
            number(view, right),
        ),
    }
}

/// The value of the term, which may be a text where it is a lone literal or variable.
#[inline(always)]
pub fn term_value<V: View>(view: &V, term: &Term) -> Option<TermValue>
    requires { Computes (net_reading (V.seen view.now)) term.now }
    ensures { meant_if result ≡ term_value (net_reading (V.seen view.now)) term.now }
{
    match term {
        Term::Literal(value) => Some(of_value(*value)),
        Term::Read(var) => of_value_if(view.value(*var)),
        _ => value_of_number(number(view, term)),
    }
}
