//! What is used at characteristics and their values, typed at a slot.

ghost use Rattle.std.specs.Prelude.{◌≡◌, flat_map, slice_get, IfOk, Some};
ghost use Rattle.vc_compile_plan.specs.Places as places;
ghost use Rattle.vc_compile_plan.specs.Refusals as refusals;
ghost use Rattle.vc_compile_plan.specs.Uses as uses;
ghost use Rattle.vc_compile_layout.specs.Standing.{layout_seen};
ghost use Rattle.vc_compile_typing.specs.Finding.{first_with, seen_if};

use crate::finding::Found;
use crate::uses::with_uses_at;
use std::alloc::{AllocError, Global};
use vc_compile_layout::Layout;
use vc_model_parts::{Characteristic, NumberValue, TextValue, Values};
use vc_plan::Slot;

fn with_text_values(
    alloc: Global,
    layout: &Layout<'_, '_>,
    slot: &Slot,
    values: &[TextValue],
    before: Option<Found>,
) -> Result<Option<Found>, AllocError>
    ensures { IfOk result (λ first. seen_if first ≡ first_with (layout_seen layout.now).model (seen_if before)
        (refusals.typed_at (layout_seen layout.now).model
        (λ dependency. places.place_at (layout_seen layout.now) slot.now (refusals.at_of dependency))
        (flat_map (λ value. value.uses) values.now))) }
{
    let mut first = before;
    for value in values {
        first = with_uses_at(alloc, layout, slot, value.uses.as_slice(), first)?;
    }
    Ok(first)
}

fn with_number_values(
    alloc: Global,
    layout: &Layout<'_, '_>,
    slot: &Slot,
    values: &[NumberValue],
    before: Option<Found>,
) -> Result<Option<Found>, AllocError>
    ensures { IfOk result (λ first. seen_if first ≡ first_with (layout_seen layout.now).model (seen_if before)
        (refusals.typed_at (layout_seen layout.now).model
        (λ dependency. places.place_at (layout_seen layout.now) slot.now (refusals.at_of dependency))
        (flat_map (λ value. value.uses) values.now))) }
{
    let mut first = before;
    for value in values {
        first = with_uses_at(alloc, layout, slot, value.uses.as_slice(), first)?;
    }
    Ok(first)
}

fn with_values(
    alloc: Global,
    layout: &Layout<'_, '_>,
    slot: &Slot,
    values: &Values,
    before: Option<Found>,
) -> Result<Option<Found>, AllocError>
    ensures { IfOk result (λ first. seen_if first ≡ first_with (layout_seen layout.now).model (seen_if before)
        (refusals.typed_at (layout_seen layout.now).model
        (λ dependency. places.place_at (layout_seen layout.now) slot.now (refusals.at_of dependency))
        (uses.uses_of_values values.now))) }
{
    match values {
        Values::Texts { values, .. } => {
            let first = with_text_values(alloc, layout, slot, values.as_slice(), before)?;
            Ok(first)
        }
        Values::Numbers { values, .. } => {
            let first = with_number_values(alloc, layout, slot, values.as_slice(), before)?;
            Ok(first)
        }
    }
}

fn with_characteristic(
    alloc: Global,
    layout: &Layout<'_, '_>,
    slot: &Slot,
    characteristic: &Characteristic,
    before: Option<Found>,
) -> Result<Option<Found>, AllocError>
    ensures { IfOk result (λ first. seen_if first ≡ first_with (layout_seen layout.now).model (seen_if before)
        (refusals.typed_at (layout_seen layout.now).model
        (λ dependency. places.place_at (layout_seen layout.now) slot.now (refusals.at_of dependency))
        (uses.uses_of_characteristic (Some characteristic.now)))) }
{
    let first = with_uses_at(alloc, layout, slot, characteristic.uses.as_slice(), before)?;
    let first = with_values(alloc, layout, slot, &characteristic.values, first)?;
    Ok(first)
}

fn with_member(
    alloc: Global,
    layout: &Layout<'_, '_>,
    slot: &Slot,
    member: u32,
    before: Option<Found>,
) -> Result<Option<Found>, AllocError>
    ensures { IfOk result (λ first. seen_if first ≡ first_with (layout_seen layout.now).model (seen_if before)
        (refusals.typed_at (layout_seen layout.now).model
        (λ dependency. places.place_at (layout_seen layout.now) slot.now (refusals.at_of dependency))
        (uses.uses_of_characteristic (slice_get ((layout_seen layout.now).model).characteristics member)))) }
{
    match layout.characteristic(member) {
        Some(characteristic) => with_characteristic(alloc, layout, slot, characteristic, before),
        None => Ok(before),
    }
}

/// The first fault, with what is used at these characteristics and their values typed at a slot.
pub fn with_members(
    alloc: Global,
    layout: &Layout<'_, '_>,
    slot: &Slot,
    members: &[u32],
    before: Option<Found>,
) -> Result<Option<Found>, AllocError>
    ensures { IfOk result (λ first. seen_if first ≡ first_with (layout_seen layout.now).model (seen_if before)
        (refusals.typed_at (layout_seen layout.now).model
        (λ dependency. places.place_at (layout_seen layout.now) slot.now (refusals.at_of dependency))
        (flat_map (λ c. uses.uses_of_characteristic (slice_get ((layout_seen layout.now).model).characteristics c))
        members.now))) }
{
    let mut first = before;
    for member in members {
        first = with_member(alloc, layout, slot, *member, first)?;
    }
    Ok(first)
}
