//! What a characteristic may have as its value.

use crate::decimal::Dec;

/// A value: a text by its number in the model, or a number.
#[derive(Clone, Copy, Debug, PartialEq, Eq, Hash)]
pub enum Value {
    Text(u32),
    Num(Dec),
}
