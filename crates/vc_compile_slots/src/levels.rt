//! How many levels of slots a model has.

ghost use Rattle.std.specs.Prelude.{◌≡◌, IfOk};
ghost use Rattle.std.specs.List.{list_any};
ghost use Rattle.vc_compile_plan.specs.Slots as slots;
ghost use Rattle.vc_compile_slots.specs.Levels.{brings_marked, brings_object, is_marked, is_marked_if};
ghost use Rattle.vc_compile_slots.specs.Levels.{with_components, with_marked};

use crate::bills::object_in;
use std::alloc::{AllocError, Global};
use vc_model_parts::parts::{BillItem, Model, Object};
use vc_value::Listed;

fn is_marked(marks: &[bool], object: u32) -> bool
    ensures { result ≡ is_marked marks.now object }
{
    match marks.get(object as usize) {
        Some(mark) => *mark,
        None => false,
    }
}

fn brings_object(line: &BillItem) -> bool
    ensures { result ≡ brings_object line.now }
{
    object_in(&line.component).is_some()
}

fn brings_marked(marks: &[bool], line: &BillItem) -> bool
    ensures { result ≡ brings_marked marks.now line.now }
{
    match object_in(&line.component) {
        Some(object) => is_marked(marks, object),
        None => false,
    }
}

fn has_component(bill: &[BillItem]) -> bool
    ensures { result ≡ list_any brings_object bill.now }
{
    bill.iter().any(|line| brings_object(line))
}

fn has_marked(marks: &[bool], bill: &[BillItem]) -> bool
    ensures { result ≡ list_any (brings_marked marks.now) bill.now }
{
    bill.iter().any(|line| brings_marked(marks, line))
}

// The objects that have a component.
fn with_components(alloc: Global, objects: &[Object]) -> Result<Listed<bool>, AllocError>
    ensures { IfOk result (λ marks. marks ≡ with_components objects.now) }
{
    let mut found = Listed::new(alloc);
    for object in objects {
        found.push(has_component(object.bill.as_slice()))?;
    }
    Ok(found)
}

// The objects that have a marked one.
fn with_marked(
    alloc: Global,
    marks: &[bool],
    objects: &[Object],
) -> Result<Listed<bool>, AllocError>
    ensures { IfOk result (λ found. found ≡ with_marked marks.now objects.now) }
{
    let mut found = Listed::new(alloc);
    for object in objects {
        found.push(has_marked(marks, object.bill.as_slice()))?;
    }
    Ok(found)
}

/// Whether there are more than 4 levels of slots. It looks at each line four times, whatever the bills are.
pub fn is_too_deep(alloc: Global, model: &Model) -> Result<bool, AllocError>
    ensures { IfOk result (λ deep. deep ≡ slots.is_too_deep model.now) }
{
    let objects = model.objects.as_slice();
    let one = with_components(alloc, objects)?;
    let two = with_marked(alloc, one.as_slice(), objects)?;
    let three = with_marked(alloc, two.as_slice(), objects)?;
    let four = with_marked(alloc, three.as_slice(), objects)?;
    Ok(is_marked(four.as_slice(), model.root))
}
