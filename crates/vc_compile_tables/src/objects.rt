//! Objects with the characteristics of their classes.

ghost use Rattle.std.specs.Prelude.{◌≡◌, ◌∷◌, [], ◌++◌, slice_get, IfOk, OnOk};
ghost use Rattle.vc_compile_plan.specs.Tables.{object_from, objects_of};
ghost use Rattle.vc_compile_plan.specs.Variables.{members_in, members_of};

use crate::copies::{copy_list, copy_word};
use std::alloc::{AllocError, Global};
use vc_model_parts::{Model, Object as Configurable};
use vc_plan::Object;
use vc_value::Listed;

// The characteristics of the class of the object of this number, in order.
fn members_of(model: &Model, object: usize) -> &[u32]
    ensures { result.now ≡ members_of model.now object }
{
    match model.objects.as_slice().get(object) {
        Some(object) => members_in(model, object.class),
        None => &[],
    }
}

fn members_in(model: &Model, class: u32) -> &[u32]
    ensures { result.now ≡ members_in (slice_get model.now.classes class) }
{
    match model.classes.as_slice().get(class as usize) {
        Some(class) => class.members.as_slice(),
        None => &[],
    }
}

// Puts the object of this number last.
fn push_object(
    alloc: Global,
    model: &Model,
    number: usize,
    object: &Configurable,
    objects: &mut Listed<Object>,
) -> Result<(), AllocError>
    ensures { OnOk result (objects.new ≡ objects.old ++ object_from model.now number object.now ∷ []) }
{
    objects.push(Object {
        material: copy_word(alloc, &object.material)?,
        characteristics: copy_list(alloc, members_of(model, number))?,
    })
}

/// The objects, by their numbers in the model.
pub fn objects_of(alloc: Global, model: &Model) -> Result<Listed<Object>, AllocError>
    ensures { IfOk result (λ objects. objects ≡ objects_of model.now) }
{
    let mut objects = Listed::new(alloc);
    for (number, object) in model.objects.as_slice().iter().enumerate() {
        push_object(alloc, model, number, object, &mut objects)?;
    }
    Ok(objects)
}
