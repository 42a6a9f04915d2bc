//! Truth values, and how what is known of values stands.

ghost use Rattle.std.specs.Prelude.{◌≡◌};
ghost use Rattle.vc_plan.specs.Kleene.{is_false, is_true, kleene_and, kleene_not, kleene_or, truth_of};
ghost use Rattle.vc_plan.specs.Truth.{compared, is_in, specified};
ghost use Rattle.vc_plan.specs.declared.conditions.Kleene.TheVariants.{Unknown};
ghost use Rattle.vc_plan_values.specs.Values.{meant_if};

use crate::pieces::lies_in_some;
use crate::relations::relates;
use crate::values::TermValue;
use vc_plan::{Kleene, Piece, Relation};
use vc_value::Value;

/// The truth of what is known.
pub fn truth_of(holds: bool) -> Kleene
    ensures { result ≡ truth_of holds }
{
    if holds { Kleene::True } else { Kleene::False }
}

/// True where it is false, and false where it is true.
pub fn negation(truth: Kleene) -> Kleene
    ensures { result ≡ kleene_not truth }
{
    match truth {
        Kleene::True => Kleene::False,
        Kleene::False => Kleene::True,
        Kleene::Unknown => Kleene::Unknown,
    }
}

/// True where both are true, and false where one is false.
pub fn conjunction(left: Kleene, right: Kleene) -> Kleene
    ensures { result ≡ kleene_and left right }
{
    match (left, right) {
        (Kleene::True, right) => right,
        (Kleene::False, _) => Kleene::False,
        (Kleene::Unknown, Kleene::False) => Kleene::False,
        (Kleene::Unknown, _) => Kleene::Unknown,
    }
}

/// True where one is true, and false where both are false.
pub fn disjunction(left: Kleene, right: Kleene) -> Kleene
    ensures { result ≡ kleene_or left right }
{
    match (left, right) {
        (Kleene::True, _) => Kleene::True,
        (Kleene::False, right) => right,
        (Kleene::Unknown, Kleene::True) => Kleene::True,
        (Kleene::Unknown, _) => Kleene::Unknown,
    }
}

/// How two values compare, where both are there.
pub fn compared(relation: Relation, first: Option<TermValue>, second: Option<TermValue>) -> Kleene
    ensures { result ≡ compared relation (meant_if first) (meant_if second) }
{
    match (first, second) {
        (Some(first), Some(second)) => truth_of(relates(relation, first, second)),
        _ => Kleene::Unknown,
    }
}

/// Whether a value lies in one of the pieces, where there is one.
pub fn is_in(pieces: &[Piece], value: Option<Value>) -> Kleene
    ensures { result ≡ is_in pieces.now value }
{
    match value {
        Some(value) => truth_of(lies_in_some(pieces, value)),
        None => Kleene::Unknown,
    }
}

/// True where there is a value; it may come where there is none.
pub fn specified(value: Option<Value>) -> Kleene
    ensures { result ≡ specified Unknown value }
{
    match value {
        Some(_) => Kleene::True,
        None => Kleene::Unknown,
    }
}

/// Whether it is true.
pub fn is_true(truth: Kleene) -> bool
    ensures { result ≡ is_true truth }
{
    match truth {
        Kleene::True => true,
        _ => false,
    }
}

/// Whether it is false.
pub fn is_false(truth: Kleene) -> bool
    ensures { result ≡ is_false truth }
{
    match truth {
        Kleene::False => true,
        _ => false,
    }
}
