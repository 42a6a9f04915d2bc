//! Values of terms.

ghost use Rattle.std.specs.Prelude.{◌≡◌};
ghost use Rattle.vc_plan.specs.Truth.{number_of_value, value_of_number};
ghost use Rattle.vc_plan_values.specs.Values.{meant, meant_if, count_if};

use vc_value::Value;
use vc_value_wide::Wide;

/// A value of a term: a text by its number in the model, or a number as it is computed.
#[derive(Clone, Copy, Debug, PartialEq, Eq)]
pub enum TermValue {
    Text(u32),
    Number(Wide),
}

/// The value as one of a term.
pub fn of_value(value: Value) -> TermValue
    ensures { meant result ≡ value }
{
    match value {
        Value::Text(text) => TermValue::Text(text),
        Value::Num(number) => TermValue::Number(Wide::from(number)),
    }
}

/// The value as one of a term, where there is one.
pub fn of_value_if(value: Option<Value>) -> Option<TermValue>
    ensures { meant_if result ≡ value }
{
    match value {
        Some(value) => Some(of_value(value)),
        None => None,
    }
}

/// The number of a value; a text has none.
pub fn number_of_value(value: Option<Value>) -> Option<Wide>
    ensures { count_if result ≡ number_of_value value }
{
    match value {
        Some(Value::Num(number)) => Some(Wide::from(number)),
        _ => None,
    }
}

/// The number as a value of a term, where there is one.
pub fn value_of_number(number: Option<Wide>) -> Option<TermValue>
    ensures { meant_if result ≡ value_of_number (count_if number) }
{
    match number {
        Some(number) => Some(TermValue::Number(number)),
        None => None,
    }
}
