//! The least fault that stands in a dependency.

ghost use Rattle.std.specs.Prelude.{◌≡◌, IfOk};
ghost use Rattle.vc_types.specs.Faults.{all_kinds, stands};
ghost use Rattle.vc_types.specs.Settings.{variables_in};
ghost use Rattle.vc_types_dependency.specs.Found.{IsFound, setting_in, tree_in};
ghost use Rattle.vc_types_dependency.specs.Kinds.{least_of};
ghost use Rattle.vc_types_meanings.specs.Borrowed.{tree_of};
ghost use Rattle.vc_types_meanings.specs.Seen.{seen};

use crate::found::Found;
use crate::kinds;
use std::alloc::{AllocError, Global};
use vc_types::TypeFaultKind;
use vc_types_meanings::{Setting, Tree};
use vc_types_occurrences::gathering::{gather_leaves, gather_parts, gather_terms};

// Whether a fault of the kind stands in the dependency.
fn stands(alloc: Global, found: &Found, kind: TypeFaultKind) -> Result<bool, AllocError>
    requires { IsFound found.now }
    ensures { IfOk result (λ there. there ≡ stands (setting_in found.now) (tree_in found.now) kind) }
{
    match kind {
        TypeFaultKind::UnknownName => Ok(kinds::unknown_name(found)),
        TypeFaultKind::DoubleName => kinds::double_name(alloc, found),
        TypeFaultKind::WrongKind => Ok(kinds::wrong_kind(found)),
        TypeFaultKind::NotMonotone => Ok(kinds::not_monotone(found)),
        TypeFaultKind::SelfInConstraint => Ok(kinds::self_named(found)),
        TypeFaultKind::NoParent => Ok(kinds::parent_missing(found)),
        TypeFaultKind::SelfInLine => Ok(kinds::self_of_line(found)),
        TypeFaultKind::VariableOutside => Ok(kinds::strays(found)),
        TypeFaultKind::NoKey => Ok(kinds::no_key(found)),
        TypeFaultKind::NotATerm => Ok(kinds::not_a_term(found)),
        TypeFaultKind::SumPlace => Ok(kinds::sum_place(found)),
        TypeFaultKind::RangeTooWide => Ok(kinds::range_too_wide(found)),
        TypeFaultKind::PartOfPlace => Ok(kinds::hides_part(found)),
        TypeFaultKind::TooManyObjects => Ok(kinds::too_many_objects(found)),
    }
}

// The first of the kinds that stands.
fn first_standing(
    alloc: Global,
    found: &Found,
    kinds: &[TypeFaultKind],
) -> Result<Option<TypeFaultKind>, AllocError>
    requires { IsFound found.now }
    ensures { IfOk result (λ kind. kind ≡ least_of (stands (setting_in found.now) (tree_in found.now)) kinds.now) }
{
    for kind in kinds {
        if stands(alloc, found, *kind)? {
            return Ok(Some(*kind));
        }
    }
    Ok(None)
}

// The least kind that stands.
fn least(alloc: Global, found: &Found) -> Result<Option<TypeFaultKind>, AllocError>
    requires { IsFound found.now }
    ensures { IfOk result (λ kind. kind ≡ least_of (stands (setting_in found.now) (tree_in found.now)) all_kinds) }
{
    let kinds = [
        TypeFaultKind::UnknownName,
        TypeFaultKind::DoubleName,
        TypeFaultKind::WrongKind,
        TypeFaultKind::NotMonotone,
        TypeFaultKind::SelfInConstraint,
        TypeFaultKind::NoParent,
        TypeFaultKind::SelfInLine,
        TypeFaultKind::VariableOutside,
        TypeFaultKind::NoKey,
        TypeFaultKind::NotATerm,
        TypeFaultKind::SumPlace,
        TypeFaultKind::RangeTooWide,
        TypeFaultKind::PartOfPlace,
        TypeFaultKind::TooManyObjects,
    ];
    first_standing(alloc, found, &kinds)
}

/// The least kind of fault that stands in the dependency in its setting, if one does.
pub fn type_fault(
    alloc: Global,
    setting: &Setting,
    tree: Tree,
) -> Result<Option<TypeFaultKind>, AllocError>
    requires { (seen setting.now).variables ≡ variables_in (seen setting.now).model (tree_of tree) }
    ensures { IfOk result (λ kind. kind ≡ least_of (stands (seen setting.now) (tree_of tree.entry)) all_kinds) }
{
    let parts = gather_parts(alloc, tree)?;
    let terms = gather_terms(alloc, tree, &parts)?;
    let leaves = gather_leaves(alloc, setting, tree, &parts, &terms)?;
    let found = Found {
        setting,
        tree,
        parts: &parts,
        terms: &terms,
        leaves: &leaves,
    };
    least(alloc, &found)
}
