//! What stands at slots, typed there.

ghost use Rattle.std.specs.Prelude.{◌≡◌, ◌∷◌, flat_map, if◌then◌else◌, IfOk, Some};
ghost use Rattle.std.specs.List.{list_any};
ghost use Rattle.vc_syntax_tree.specs.Trees.{Counts, term_of};
ghost use Rattle.vc_compile_plan.specs.Refusals as refusals;
ghost use Rattle.vc_compile_layout.specs.Standing.{layout_seen};
ghost use Rattle.vc_compile_typing.specs.Alike.{is_alike};
ghost use Rattle.vc_compile_typing.specs.Finding.{first_with, seen_if};

use crate::finding::{Found, with_term};
use crate::members::with_members;
use crate::skipping::has_alike;
use crate::uses::{with_constraints, with_uses, with_uses_at};
use std::alloc::{AllocError, Global};
use vc_compile_layout::Layout;
use vc_compile_sites::{is_configurable, place_at};
use vc_model_parts::{BillItem, Object, Operation};
use vc_plan::Slot;
use vc_syntax_tree::Term;
use vc_types::{At, Place};

// A quantity or a time of a line of the text, and what is used at the same place.
fn with_counted(
    alloc: Global,
    layout: &Layout<'_, '_>,
    place: &Place,
    line: u32,
    term: &Term,
    uses: &[u32],
    before: Option<Found>,
) -> Result<Option<Found>, AllocError>
    ensures { IfOk result (λ first. seen_if first ≡ first_with (layout_seen layout.now).model (seen_if before)
        (record {
          line = line;
          place = place.now;
          tree = Counts (term_of term.now);
        } ∷ refusals.typed_at (layout_seen layout.now).model (λ dependency. place.now) uses.now)) }
{
    let first = with_term(alloc, layout.names(), line, term, place, before)?;
    let first = with_uses(alloc, layout, place, uses, first)?;
    Ok(first)
}

// A line of a bill: its quantity, and what it asks.
fn with_line(
    alloc: Global,
    layout: &Layout<'_, '_>,
    slot: &Slot,
    item: &BillItem,
    before: Option<Found>,
) -> Result<Option<Found>, AllocError>
    ensures { IfOk result (λ first. seen_if first ≡ first_with (layout_seen layout.now).model (seen_if before)
        (refusals.typed_line (layout_seen layout.now) slot.now item.now)) }
{
    let configurable = is_configurable(&item.component);
    let place = place_at(layout, slot, At::Line { configurable });
    let uses = item.uses.as_slice();
    let first = with_counted(
        alloc,
        layout,
        &place,
        item.line,
        &item.quantity,
        uses,
        before,
    )?;
    Ok(first)
}

fn with_lines(
    alloc: Global,
    layout: &Layout<'_, '_>,
    slot: &Slot,
    bill: &[BillItem],
    before: Option<Found>,
) -> Result<Option<Found>, AllocError>
    ensures { IfOk result (λ first. seen_if first ≡ first_with (layout_seen layout.now).model (seen_if before)
        (flat_map (refusals.typed_line (layout_seen layout.now) slot.now) bill.now)) }
{
    let mut first = before;
    for item in bill {
        first = with_line(alloc, layout, slot, item, first)?;
    }
    Ok(first)
}

// An operation: its time, and what it asks.
fn with_operation(
    alloc: Global,
    layout: &Layout<'_, '_>,
    slot: &Slot,
    operation: &Operation,
    before: Option<Found>,
) -> Result<Option<Found>, AllocError>
    ensures { IfOk result (λ first. seen_if first ≡ first_with (layout_seen layout.now).model (seen_if before)
        (refusals.typed_operation (layout_seen layout.now) slot.now operation.now)) }
{
    let place = place_at(layout, slot, At::Operation);
    let uses = operation.uses.as_slice();
    let first = with_counted(
        alloc,
        layout,
        &place,
        operation.line,
        &operation.time,
        uses,
        before,
    )?;
    Ok(first)
}

fn with_operations(
    alloc: Global,
    layout: &Layout<'_, '_>,
    slot: &Slot,
    operations: &[Operation],
    before: Option<Found>,
) -> Result<Option<Found>, AllocError>
    ensures { IfOk result (λ first. seen_if first ≡ first_with (layout_seen layout.now).model (seen_if before)
        (flat_map (refusals.typed_operation (layout_seen layout.now) slot.now) operations.now)) }
{
    let mut first = before;
    for operation in operations {
        first = with_operation(alloc, layout, slot, operation, first)?;
    }
    Ok(first)
}

// All that stands at the object of a slot.
fn with_object(
    alloc: Global,
    layout: &Layout<'_, '_>,
    slot: &Slot,
    object: &Object,
    before: Option<Found>,
) -> Result<Option<Found>, AllocError>
    ensures { IfOk result (λ first. seen_if first ≡ first_with (layout_seen layout.now).model (seen_if before)
        (refusals.typed_object (layout_seen layout.now) slot.now (Some object.now))) }
{
    let first = with_uses_at(alloc, layout, slot, object.procedures.as_slice(), before)?;
    let first = with_members(alloc, layout, slot, layout.members_in(object.class), first)?;
    let first = with_lines(alloc, layout, slot, object.bill.as_slice(), first)?;
    let first = with_operations(alloc, layout, slot, object.operations.as_slice(), first)?;
    Ok(first)
}

fn with_slot(
    alloc: Global,
    layout: &Layout<'_, '_>,
    slot: &Slot,
    before: Option<Found>,
) -> Result<Option<Found>, AllocError>
    ensures { IfOk result (λ first. seen_if first ≡ first_with (layout_seen layout.now).model (seen_if before)
        (refusals.typed_slot (layout_seen layout.now) slot.now)) }
{
    match layout.object(slot.object) {
        Some(object) => with_object(alloc, layout, slot, object, before),
        None => Ok(before),
    }
}

// A slot, unless the same was typed at one of these.
fn with_slot_after(
    alloc: Global,
    layout: &Layout<'_, '_>,
    earlier: &[Slot],
    slot: &Slot,
    before: Option<Found>,
) -> Result<Option<Found>, AllocError>
    ensures { IfOk result (λ first. seen_if first
        ≡ (if list_any (is_alike (layout_seen layout.now) slot.now) earlier.now then seen_if before
        else first_with (layout_seen layout.now).model (seen_if before)
        (refusals.typed_slot (layout_seen layout.now) slot.now))) }
{
    if has_alike(layout, earlier, slot) {
        return Ok(before);
    }
    let first = with_slot(alloc, layout, slot, before)?;
    Ok(first)
}

fn with_slots(
    alloc: Global,
    layout: &Layout<'_, '_>,
    slots: &[Slot],
    before: Option<Found>,
) -> Result<Option<Found>, AllocError>
    ensures { IfOk result (λ first. seen_if first ≡ first_with (layout_seen layout.now).model (seen_if before)
        (flat_map (refusals.typed_slot (layout_seen layout.now)) slots.now)) }
{
    let mut first = before;
    for (number, slot) in slots.iter().enumerate() {
        first = with_slot_after(alloc, layout, &slots[..number], slot, first)?;
    }
    Ok(first)
}

/// The first fault of the typing: that of the first line that has one, and there the least kind over all its places.
/// Constraints are typed where some net uses them, all else at each slot where it stands.
pub fn type_fault(alloc: Global, layout: &Layout<'_, '_>) -> Result<Option<Found>, AllocError>
    ensures { IfOk result (λ first. seen_if first
        ≡ refusals.first_of (refusals.type_faults (layout_seen layout.now))) }
{
    let first = with_constraints(alloc, layout)?;
    let first = with_slots(alloc, layout, layout.slots(), first)?;
    Ok(first)
}
