//! A dependency at a place, with all that stands in it.

use vc_types_meanings::{Setting, Tree};
use vc_types_occurrences::{Given, Leaves, Parts};

/// A dependency at a place, with all that stands in it.
#[derive(Clone, Copy)]
pub struct Found<'f, 'n, 'm, 's, 't> {
    pub setting: &'f Setting<'n, 'm, 's>,
    pub tree: Tree<'t>,
    pub parts: &'f Parts<'t>,
    pub terms: &'f Given<'t>,
    pub leaves: &'f Leaves<'t>,
}
