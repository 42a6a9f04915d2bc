//! What a rule waits for.

use vc_value::Value;

/// A value that a variable must have before a rule says anything.
#[derive(Clone, Copy, Debug, PartialEq, Eq)]
pub struct Trigger {
    pub var: u32,
    pub value: Value,
}
