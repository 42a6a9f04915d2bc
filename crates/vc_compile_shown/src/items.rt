//! The lines of bills and the operations of routings, at each slot.

ghost use Rattle.std.specs.Prelude.{◌≡◌, ◌<◌, ◌^◌, length, map, slice_get, IfOk, OnOk};
ghost use Rattle.vc_syntax_tree.specs.Trees.{term_of};
ghost use Rattle.vc_compile_plan.specs.Numbering.{item_brings, line_from, operation_from};
ghost use Rattle.vc_compile_plan.specs.Places.{selections_among};
ghost use Rattle.vc_compile_plan.specs.Shown as shown;
ghost use Rattle.vc_compile_plan.specs.Sites as sites;
ghost use Rattle.vc_compile_plan.specs.Slots.{bill_of};
ghost use Rattle.vc_compile_plan.specs.Terms as compiled;
ghost use Rattle.vc_compile_plan.specs.Variables.{by_slot};
ghost use Rattle.vc_compile_numbering.specs.Growing.{seen, with_draft, with_drafts};
ghost use Rattle.vc_compile_layout.specs.Standing.{layout_seen};
ghost use Rattle.vc_compile_sites.specs.Standing.{asked_seen, site_seen};

use crate::choices::selections_at;
use std::alloc::{AllocError, Global};
use vc_compile_layout::Layout;
use vc_compile_numbering::Numbering;
use vc_compile_sites::{
    Asked, Site, is_configurable, selections_among, setting_at, site_of, term_at,
};
use vc_model_parts::{BillItem, Component, Operation as ListedOperation};
use vc_plan::{Line, Operation, Slot};
use vc_types::At;
use vc_value::{Listed, Word};

// The material of a line's component, as its own word.
fn material_of(
    alloc: Global,
    layout: &Layout<'_, '_>,
    component: &Component,
) -> Result<Word, AllocError>
    ensures { IfOk result (λ word. word ≡ shown.material_of (layout_seen layout.now).model component.now) }
{
    match component {
        Component::Object(object) => Word::from_bytes(alloc, layout.material(*object)),
        Component::Plain(material) => Word::from_bytes(alloc, material.bytes()),
    }
}

// The selection conditions of a line: those of a configurable one stand in the rules of its slot.
fn selections_of<'n>(
    alloc: Global,
    layout: &Layout<'n, '_>,
    item: &BillItem,
) -> Result<Listed<Asked<'n>>, AllocError>
    ensures { IfOk result (λ asked. (site : sites.Site)
        → map (shown.choice_at (layout_seen layout.now) site) (map asked_seen asked)
        ≡ shown.line_choices (layout_seen layout.now) site (item.now).component (item.now).uses) }
{
    match item.component {
        Component::Object(_) => Ok(Listed::new(alloc)),
        Component::Plain(_) => selections_among(alloc, layout, item.uses.as_slice()),
    }
}

// Puts a line last, whose site is this.
fn push_line_in(
    alloc: Global,
    layout: &Layout<'_, '_>,
    site: &Site<'_, '_, '_, '_>,
    slot: u32,
    item: &BillItem,
    out: &mut Numbering<Line>,
) -> Result<(), AllocError>
    ensures { OnOk result (seen out.new ≡ with_draft item_brings line_from (seen out.old) (record {
      slot = slot;
      number = (item.now).item;
      word = shown.material_of (layout_seen layout.now).model (item.now).component;
      unit = (item.now).unit;
      term = compiled.term_at (layout_seen layout.now) (site_seen site.now) (term_of ((item.now).quantity).value);
      choices = shown.line_choices (layout_seen layout.now) (site_seen site.now) (item.now).component (item.now).uses;
    })) }
{
    let material = material_of(alloc, layout, &item.component)?;
    let unit = Word::from_bytes(alloc, item.unit.bytes())?;
    let asked = selections_of(alloc, layout, item)?;
    let quantity = term_at(alloc, layout, site, &item.quantity)?;
    let selections = selections_at(alloc, layout, site, asked.as_slice(), &mut out.trees)?;
    let quantity = out.trees.add_term(quantity)?;
    out.push(Line {
        slot,
        item: item.item as u32,
        material,
        unit,
        quantity,
        selections,
    })
}

fn push_line(
    alloc: Global,
    layout: &Layout<'_, '_>,
    number: u32,
    slot: &Slot,
    item: &BillItem,
    out: &mut Numbering<Line>,
) -> Result<(), AllocError>
    ensures { OnOk result (seen out.new ≡ with_draft item_brings line_from (seen out.old)
        (shown.line_at (layout_seen layout.now) number slot.now item.now)) }
{
    let at = At::Line {
        configurable: is_configurable(&item.component),
    };
    let setting = setting_at(alloc, layout, slot, at)?;
    let site = site_of(&setting, number, slot);
    push_line_in(alloc, layout, &site, number, item, out)
}

fn push_lines_at(
    alloc: Global,
    layout: &Layout<'_, '_>,
    number: u32,
    slot: &Slot,
    out: &mut Numbering<Line>,
) -> Result<(), AllocError>
    ensures { OnOk result (seen out.new ≡ with_drafts item_brings line_from (seen out.old)
        (map (shown.line_at (layout_seen layout.now) number slot.now)
        (bill_of (layout_seen layout.now).model (slot.now).object))) }
{
    for item in layout.bill_of(slot.object) {
        push_line(alloc, layout, number, slot, item, out)?;
    }
    Ok(())
}

fn push_lines_of_slots(
    alloc: Global,
    layout: &Layout<'_, '_>,
    slots: &[Slot],
    out: &mut Numbering<Line>,
) -> Result<(), AllocError>
    requires { length slots.now < 2 ^ 32 }
    ensures { OnOk result (seen out.new ≡ with_drafts item_brings line_from (seen out.old) (by_slot
        (λ i slot. map (shown.line_at (layout_seen layout.now) i slot)
        (bill_of (layout_seen layout.now).model slot.object)) 0 slots.now)) }
{
    for (number, slot) in slots.iter().enumerate() {
        push_lines_at(alloc, layout, number as u32, slot, out)?;
    }
    Ok(())
}

/// Puts the lines of the bills of all slots last.
pub fn push_lines(
    alloc: Global,
    layout: &Layout<'_, '_>,
    out: &mut Numbering<Line>,
) -> Result<(), AllocError>
    ensures { OnOk result (seen out.new ≡ with_drafts item_brings line_from (seen out.old)
        (shown.line_drafts (layout_seen layout.now))) }
{
    push_lines_of_slots(alloc, layout, layout.slots(), out)
}

// Puts an operation last, whose site is this.
fn push_operation(
    alloc: Global,
    layout: &Layout<'_, '_>,
    site: &Site<'_, '_, '_, '_>,
    slot: u32,
    operation: &ListedOperation,
    out: &mut Numbering<Operation>,
) -> Result<(), AllocError>
    ensures { OnOk result (seen out.new ≡ with_draft item_brings operation_from (seen out.old) (record {
      slot = slot;
      number = (operation.now).number;
      word = (operation.now).centre;
      unit = (operation.now).unit;
      term = compiled.term_at (layout_seen layout.now) (site_seen site.now) (term_of ((operation.now).time).value);
      choices = map (shown.choice_at (layout_seen layout.now) (site_seen site.now))
          (selections_among (layout_seen layout.now).model (operation.now).uses);
    })) }
{
    let name = Word::from_bytes(alloc, operation.centre.bytes())?;
    let unit = Word::from_bytes(alloc, operation.unit.bytes())?;
    let asked = selections_among(alloc, layout, operation.uses.as_slice())?;
    let time = term_at(alloc, layout, site, &operation.time)?;
    let selections = selections_at(alloc, layout, site, asked.as_slice(), &mut out.trees)?;
    let time = out.trees.add_term(time)?;
    out.push(Operation {
        slot,
        number: operation.number as u32,
        name,
        unit,
        time,
        selections,
    })
}

fn push_operations_at(
    alloc: Global,
    layout: &Layout<'_, '_>,
    number: u32,
    slot: &Slot,
    out: &mut Numbering<Operation>,
) -> Result<(), AllocError>
    ensures { OnOk result (seen out.new ≡ with_drafts item_brings operation_from (seen out.old)
        (map (shown.operation_at (layout_seen layout.now) number slot.now)
        (shown.operations_in (slice_get ((layout_seen layout.now).model).objects (slot.now).object)))) }
{
    let setting = setting_at(alloc, layout, slot, At::Operation)?;
    let site = site_of(&setting, number, slot);
    for operation in layout.operations_of(slot.object) {
        push_operation(alloc, layout, &site, number, operation, out)?;
    }
    Ok(())
}

fn push_operations_of_slots(
    alloc: Global,
    layout: &Layout<'_, '_>,
    slots: &[Slot],
    out: &mut Numbering<Operation>,
) -> Result<(), AllocError>
    requires { length slots.now < 2 ^ 32 }
    ensures { OnOk result (seen out.new ≡ with_drafts item_brings operation_from (seen out.old) (by_slot
        (λ i slot. map (shown.operation_at (layout_seen layout.now) i slot)
        (shown.operations_in (slice_get ((layout_seen layout.now).model).objects slot.object))) 0 slots.now)) }
{
    for (number, slot) in slots.iter().enumerate() {
        push_operations_at(alloc, layout, number as u32, slot, out)?;
    }
    Ok(())
}

/// Puts the operations of all slots last.
pub fn push_operations(
    alloc: Global,
    layout: &Layout<'_, '_>,
    out: &mut Numbering<Operation>,
) -> Result<(), AllocError>
    ensures { OnOk result (seen out.new ≡ with_drafts item_brings operation_from (seen out.old)
        (shown.operation_drafts (layout_seen layout.now))) }
{
    push_operations_of_slots(alloc, layout, layout.slots(), out)
}
