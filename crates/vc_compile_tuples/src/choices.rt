//! The slots that each object of a constraint may be.

ghost use Rattle.std.specs.Prelude.{◌≡◌, IfOk};
ghost use Rattle.vc_compile_plan.specs.Tuples.{are_same};
ghost use Rattle.vc_compile_tuples.specs.Growing.{choice_from, choices_of, is_kind};

use std::alloc::{AllocError, Global};
use vc_plan::Slot;
use vc_syntax_tree::{Object, ObjectKind};
use vc_types_names::Names;
use vc_value::Listed;

/// Whether both are there and the same.
pub fn are_same(first: Option<u32>, second: Option<u32>) -> bool
    ensures { result ≡ are_same first second }
{
    match first {
        None => false,
        Some(first) => match second {
            None => false,
            Some(second) => first == second,
        },
    }
}

// Whether an object is one of the class, or of the material, named.
fn is_kind(names: &Names, kind: &ObjectKind, object: Option<u32>) -> bool
    ensures { result ≡ is_kind names.now.model.now kind.now object }
{
    match kind {
        ObjectKind::Class(leaf) => {
            are_same(names.class(leaf.name.bytes()), names.class_of(object))
        }
        ObjectKind::Material(leaf) => are_same(names.object(leaf.text.bytes()), object),
    }
}

fn choice_of(
    alloc: Global,
    names: &Names,
    slots: &[Slot],
    kind: &ObjectKind,
) -> Result<Listed<u32>, AllocError>
    ensures { IfOk result (λ choice. choice ≡ choice_from names.now.model.now kind.now 0 slots.now) }
{
    if slots.len() > u32::MAX as usize {
        return Err(AllocError);
    }
    let mut choice = Listed::new(alloc);
    for (number, slot) in slots.iter().enumerate() {
        if is_kind(names, kind, Some(slot.object)) {
            choice.push(number as u32)?;
        }
    }
    Ok(choice)
}

/// The slots whose objects are of the kind of each object of a constraint.
pub fn choices_of(
    alloc: Global,
    names: &Names,
    slots: &[Slot],
    objects: &[Object],
) -> Result<Listed<Listed<u32>>, AllocError>
    ensures { IfOk result (λ choices. choices ≡ choices_of names.now.model.now slots.now objects.now) }
{
    let mut choices = Listed::new(alloc);
    for object in objects {
        choices.push(choice_of(alloc, names, slots, &object.kind)?)?;
    }
    Ok(choices)
}
