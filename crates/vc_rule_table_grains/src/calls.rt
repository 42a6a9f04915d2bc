//! A table call as the grains of one of its variables are gone through.

use vc_plan::{Binding, Plan};
use vc_rule_yield::scratch::{Marks, Note};
use vc_value::{Domain, Listed, Value};

/// What is seen, the variable, and the rows with their notes.
#[derive(Drop)]
pub struct TableCall<'a, V> {
    pub plan: &'a Plan,
    pub view: &'a V,
    pub columns: &'a [Binding],
    pub var: u32,
    pub domain: &'a Domain,
    pub rows: &'a [Listed<Value>],
    pub notes: &'a [Note],
}

/// The call with the marks of its rows, and whether these are chained.
#[derive(Drop)]
pub struct MarkedCall<'a, V> {
    pub call: &'a TableCall<'a, V>,
    pub marks: &'a Option<Marks>,
    pub chained: bool,
}
