//! Relations of values, and of values and pieces.

ghost use Rattle.std.specs.Prelude.{◌≡◌};
ghost use Rattle.vc_plan.specs.Pieces.{opposite, turned, text_relates, numbers_relate, is_inside, relates, same_value};
ghost use Rattle.vc_plan_values.specs.Values.{meant};

use crate::values::TermValue;
use vc_plan::{Piece, Relation};
use vc_value_wide::Wide;

/// The relation that holds exactly where this one doesn't.
pub fn opposite(relation: Relation) -> Relation
    ensures { result ≡ opposite relation }
{
    match relation {
        Relation::Equal => Relation::Unequal,
        Relation::Unequal => Relation::Equal,
        Relation::Less => Relation::AtLeast,
        Relation::AtMost => Relation::Greater,
        Relation::Greater => Relation::AtMost,
        Relation::AtLeast => Relation::Less,
    }
}

/// The relation with its sides changed.
pub fn turned(relation: Relation) -> Relation
    ensures { result ≡ turned relation }
{
    match relation {
        Relation::Equal => Relation::Equal,
        Relation::Unequal => Relation::Unequal,
        Relation::Less => Relation::Greater,
        Relation::AtMost => Relation::AtLeast,
        Relation::Greater => Relation::Less,
        Relation::AtLeast => Relation::AtMost,
    }
}

// How a text stands to a thing that it is, or isn't.
fn text_relates(relation: Relation, same: bool) -> bool
    ensures { result ≡ text_relates relation same }
{
    match relation {
        Relation::Equal => same,
        Relation::Unequal => !same,
        _ => false,
    }
}

// Whether all numbers from the first to the second stand in the relation to the third.
fn numbers_relate(relation: Relation, low: i128, high: i128, to: i128) -> bool
    ensures { result ≡ numbers_relate relation low high to }
{
    match relation {
        Relation::Equal => low == to && high == to,
        Relation::Unequal => high < to || to < low,
        Relation::Less => high < to,
        Relation::AtMost => high <= to,
        Relation::Greater => to < low,
        Relation::AtLeast => to <= low,
    }
}

/// Whether the first value stands in the relation to the second.
pub fn relates(relation: Relation, first: TermValue, second: TermValue) -> bool
    ensures { result ≡ relates relation (meant first) (meant second) }
{
    match (first, second) {
        (TermValue::Text(text), TermValue::Text(other)) => text_relates(relation, text == other),
        (TermValue::Number(number), TermValue::Number(other)) => {
            numbers_relate(
                relation,
                number.millionths,
                number.millionths,
                other.millionths,
            )
        }
        _ => text_relates(relation, false),
    }
}

/// Whether all that the piece has stands in the relation to the value.
pub fn is_inside(relation: Relation, value: TermValue, piece: Piece) -> bool
    ensures { result ≡ is_inside relation (meant value) piece }
{
    match (value, piece) {
        (TermValue::Text(text), Piece::OneText(other)) => text_relates(relation, other == text),
        (TermValue::Number(number), Piece::Stretch(grain)) => {
            let low = Wide::from(grain.low);
            let high = Wide::from(grain.high);
            numbers_relate(relation, low.millionths, high.millionths, number.millionths)
        }
        _ => text_relates(relation, false),
    }
}

/// Whether two values of terms are one.
pub fn same_value(first: TermValue, second: TermValue) -> bool
    ensures { result ≡ same_value (meant first) (meant second) }
{
    match (first, second) {
        (TermValue::Text(text), TermValue::Text(other)) => text == other,
        (TermValue::Number(number), TermValue::Number(other)) => {
            number.millionths == other.millionths
        }
        _ => false,
    }
}
