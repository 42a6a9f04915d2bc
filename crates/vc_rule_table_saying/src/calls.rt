//! A table call with the notes of its rows.

use vc_plan::{Binding, Plan};
use vc_rule_yield::scratch::Note;
use vc_value::{Listed, Value};

/// What is seen, and the rows with their notes.
#[derive(Drop)]
pub struct NotedCall<'a, V> {
    pub plan: &'a Plan,
    pub view: &'a V,
    pub columns: &'a [Binding],
    pub rows: &'a [Listed<Value>],
    pub notes: &'a [Note],
}
