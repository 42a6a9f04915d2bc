//! Whether values are one, and atoms are one.

ghost use Rattle.std.specs.Prelude.{◌≡◌};
ghost use Rattle.vc_plan.specs.Pieces.{same_value};
ghost use Rattle.vc_plan.specs.Seen.{is_value, same_atom};

use vc_plan::Atom;
use vc_value::Value;

/// Whether two values are one.
pub fn same_value(first: Value, second: Value) -> bool
    ensures { result ≡ same_value first second }
{
    match (first, second) {
        (Value::Text(text), Value::Text(other)) => text == other,
        (Value::Num(number), Value::Num(other)) => number.millionths == other.millionths,
        _ => false,
    }
}

/// Whether two atoms are one.
pub fn same_atom(first: Atom, second: Atom) -> bool
    ensures { result ≡ same_atom first second }
{
    match (first, second) {
        (Atom::Here(slot), Atom::Here(other)) => slot == other,
        (Atom::Out(var, grain), Atom::Out(other, also)) => var == other && grain == also,
        (Atom::Is(var, value), Atom::Is(other, also)) => var == other && same_value(value, also),
        _ => false,
    }
}

/// Whether it is this value.
pub fn is_value(value: Value, other: Option<Value>) -> bool
    ensures { result ≡ is_value value other }
{
    match other {
        Some(other) => same_value(value, other),
        None => false,
    }
}
