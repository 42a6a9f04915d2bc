//! Which constraints are active, and which dependencies are used: those that stand at the object of
//! some slot.

ghost use Rattle.std.specs.Prelude.{◌≡◌, ◌++◌, List, flat_map, length, slice_get, IfOk, Some};
ghost use Rattle.std.specs.List.{filter};
ghost use Rattle.vc_plan.specs.Domains.{numbers_below};
ghost use Rattle.vc_compile_plan.specs.Refusals.{is_in_net};
ghost use Rattle.vc_compile_plan.specs.Layouts.{layout_over};
ghost use Rattle.vc_compile_plan.specs.Uses as uses;
ghost use Rattle.vc_compile_plan.specs.Variables.{members_in};
ghost use Rattle.vc_compile_plan.specs.declared.standings.Standing.{Standing};
ghost use Rattle.vc_compile_uses.specs.Marks.{mark_all};

use crate::marks::{mark_numbers, marked_numbers, unmarked};
use std::alloc::{AllocError, Global};
use vc_model_parts::parts::{
    BillItem, Characteristic, Model, Net, NumberValue, Object, Operation, TextValue, Values,
};
use vc_plan::Slot;
use vc_value::Listed;

fn constraints_of(model: &Model, net: u32) -> &[u32]
    ensures { result.now ≡ uses.constraints_in (slice_get model.now.nets net) }
{
    match model.nets.as_slice().get(net as usize) {
        Some(net) => net.constraints.as_slice(),
        None => &[],
    }
}

fn mark_net_constraints(model: &Model, object: &Object, marks: &mut Listed<bool>)
    ensures { marks.new ≡ mark_all marks.old (uses.net_constraints model.now (Some object.now)) }
{
    for net in object.nets.as_slice() {
        mark_numbers(marks, constraints_of(model, *net));
    }
}

fn mark_constraints_at(model: &Model, object: u32, marks: &mut Listed<bool>)
    ensures { marks.new ≡ mark_all marks.old (uses.net_constraints model.now (slice_get model.now.objects object)) }
{
    if let Some(object) = model.objects.as_slice().get(object as usize) {
        mark_net_constraints(model, object, marks);
    }
}

// Marks the constraints of the nets of all objects at slots.
fn mark_active(model: &Model, slots: &[Slot], marks: &mut Listed<bool>)
    ensures { marks.new ≡ mark_all marks.old
        (flat_map (λ slot. uses.net_constraints model.now (slice_get model.now.objects slot.object)) slots.now) }
{
    for slot in slots {
        mark_constraints_at(model, slot.object, marks);
    }
}

fn mark_text_values(values: &[TextValue], marks: &mut Listed<bool>)
    ensures { marks.new ≡ mark_all marks.old (flat_map (λ value. value.uses) values.now) }
{
    for value in values {
        mark_numbers(marks, value.uses.as_slice());
    }
}

fn mark_number_values(values: &[NumberValue], marks: &mut Listed<bool>)
    ensures { marks.new ≡ mark_all marks.old (flat_map (λ value. value.uses) values.now) }
{
    for value in values {
        mark_numbers(marks, value.uses.as_slice());
    }
}

fn mark_values(values: &Values, marks: &mut Listed<bool>)
    ensures { marks.new ≡ mark_all marks.old (uses.uses_of_values values.now) }
{
    match values {
        Values::Texts { values, .. } => mark_text_values(values.as_slice(), marks),
        Values::Numbers { values, .. } => mark_number_values(values.as_slice(), marks),
    }
}

#[tactic(auto, using(crate::proofs::MarkLemmas::joins))]
fn mark_characteristic(characteristic: &Characteristic, marks: &mut Listed<bool>)
    ensures { marks.new ≡ mark_all marks.old (uses.uses_of_characteristic (Some characteristic.now)) }
{
    mark_numbers(marks, characteristic.uses.as_slice());
    mark_values(&characteristic.values, marks);
}

fn mark_member(model: &Model, member: u32, marks: &mut Listed<bool>)
    ensures { marks.new ≡ mark_all marks.old
        (uses.uses_of_characteristic (slice_get model.now.characteristics member)) }
{
    if let Some(characteristic) = model.characteristics.as_slice().get(member as usize) {
        mark_characteristic(characteristic, marks);
    }
}

// The characteristics of a class.
fn members_of(model: &Model, class: u32) -> &[u32]
    ensures { result.now ≡ members_in (slice_get model.now.classes class) }
{
    match model.classes.as_slice().get(class as usize) {
        Some(class) => class.members.as_slice(),
        None => &[],
    }
}

fn mark_members(model: &Model, class: u32, marks: &mut Listed<bool>)
    ensures { marks.new ≡ mark_all marks.old
        (flat_map (λ c. uses.uses_of_characteristic (slice_get model.now.characteristics c))
        (members_in (slice_get model.now.classes class))) }
{
    let members = members_of(model, class);
    for member in members {
        mark_member(model, *member, marks);
    }
}

fn mark_lines(bill: &[BillItem], marks: &mut Listed<bool>)
    ensures { marks.new ≡ mark_all marks.old (flat_map (λ line. line.uses) bill.now) }
{
    for line in bill {
        mark_numbers(marks, line.uses.as_slice());
    }
}

fn mark_operations(operations: &[Operation], marks: &mut Listed<bool>)
    ensures { marks.new ≡ mark_all marks.old (flat_map (λ operation. operation.uses) operations.now) }
{
    for operation in operations {
        mark_numbers(marks, operation.uses.as_slice());
    }
}

#[tactic(auto, using(crate::proofs::MarkLemmas::joins))]
fn mark_object(model: &Model, object: &Object, marks: &mut Listed<bool>)
    ensures { marks.new ≡ mark_all marks.old (uses.uses_of_object model.now (Some object.now)) }
{
    mark_numbers(marks, object.procedures.as_slice());
    mark_members(model, object.class, marks);
    mark_lines(object.bill.as_slice(), marks);
    mark_operations(object.operations.as_slice(), marks);
}

fn mark_uses_at(model: &Model, object: u32, marks: &mut Listed<bool>)
    ensures { marks.new ≡ mark_all marks.old (uses.uses_of_object model.now (slice_get model.now.objects object)) }
{
    if let Some(object) = model.objects.as_slice().get(object as usize) {
        mark_object(model, object, marks);
    }
}

// Marks what stands at all objects at slots.
fn mark_standing(model: &Model, slots: &[Slot], marks: &mut Listed<bool>)
    ensures { marks.new ≡ mark_all marks.old
        (flat_map (λ slot. uses.uses_of_object model.now (slice_get model.now.objects slot.object)) slots.now) }
{
    for slot in slots {
        mark_uses_at(model, slot.object, marks);
    }
}

/// The constraints of the nets of all objects that have a slot, by their numbers among the dependencies.
pub fn active_constraints(
    alloc: Global,
    model: &Model,
    slots: &[Slot],
) -> Result<Listed<u32>, AllocError>
    ensures { IfOk result (λ found. (standings : List Standing)
        → found ≡ uses.active_constraints (layout_over model.now standings slots.now)) }
{
    let mut marks = unmarked(alloc, model.dependencies.as_slice())?;
    mark_active(model, slots, &mut marks);
    marked_numbers(alloc, marks.as_slice())
}

/// The dependencies that are used, active constraints among them, by their numbers.
pub fn used_dependencies(
    alloc: Global,
    model: &Model,
    slots: &[Slot],
) -> Result<Listed<u32>, AllocError>
    ensures { IfOk result (λ found. (standings : List Standing)
        → found ≡ uses.used_dependencies (layout_over model.now standings slots.now)) }
{
    let mut marks = unmarked(alloc, model.dependencies.as_slice())?;
    mark_active(model, slots, &mut marks);
    mark_standing(model, slots, &mut marks);
    marked_numbers(alloc, marks.as_slice())
}

// Marks the constraints of these nets.
fn mark_nets(nets: &[Net], marks: &mut Listed<bool>)
    ensures { marks.new ≡ mark_all marks.old (flat_map (λ net. net.constraints) nets.now) }
{
    for net in nets {
        mark_numbers(marks, net.constraints.as_slice());
    }
}

/// The constraints that some net uses, whether an object has that net or not, by their numbers among the
/// dependencies.
pub fn net_constraints(alloc: Global, model: &Model) -> Result<Listed<u32>, AllocError>
    ensures { IfOk result (λ found. found
        ≡ filter (is_in_net model.now) (numbers_below (length model.now.dependencies))) }
{
    let mut marks = unmarked(alloc, model.dependencies.as_slice())?;
    mark_nets(model.nets.as_slice(), &mut marks);
    marked_numbers(alloc, marks.as_slice())
}
