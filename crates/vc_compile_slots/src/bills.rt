//! The bills of objects.

ghost use Rattle.std.specs.Prelude.{◌≡◌};
ghost use Rattle.vc_compile_plan.specs.Slots.{bill_of, object_in};

use vc_model_parts::parts::{BillItem, Component, Model};

/// The bill of an object; none where there is no such object.
pub fn bill_of(model: &Model, object: u32) -> &[BillItem]
    ensures { result.now ≡ bill_of model.now object }
{
    match model.objects.as_slice().get(object as usize) {
        Some(object) => object.bill.as_slice(),
        None => &[],
    }
}

/// The object of a line, if it is configurable.
pub fn object_in(component: &Component) -> Option<u32>
    ensures { result ≡ object_in component.now }
{
    match component {
        Component::Object(object) => Some(*object),
        Component::Plain(_) => None,
    }
}
